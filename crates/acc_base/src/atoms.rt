//! What an atom is made of, and when two differ in their keys alone.
ghost use Rattle.std.specs.Prelude.{◌≡◌};
ghost use Rattle.acc_base.specs.Atoms.{kind_of, table_of, key_of, column_of, is_of_prefix, with_key, alike};

use crate::forms::{Atom, Lin};
use crate::sequences::{Exact, Seq};

/// The kind of an atom.
#[derive(Clone, Copy, PartialEq, Eq)]
pub enum AtomKind {
    One,
    Var,
    Has,
    Col,
    Count,
    Sum,
}

impl Exact for AtomKind {
    ghost use Rattle.std.proofs.Common.{rules};
    ghost use Rattle.acc_base.specs.Atoms.{kind_decides};

    ghost clone_is = { Prim.search rules };

    ghost eq_is = { kind_decides };
}

impl Atom {
    pub fn kind(&self) -> AtomKind
        ensures { result ≡ kind_of self.now }
    {
        match self {
            Atom::One => AtomKind::One,
            Atom::Var(_) => AtomKind::Var,
            Atom::Has(_, _) => AtomKind::Has,
            Atom::Col(_, _, _) => AtomKind::Col,
            Atom::Count(_, _) => AtomKind::Count,
            Atom::Sum(_, _, _) => AtomKind::Sum,
        }
    }

    /// The table of which it speaks, if it speaks of one.
    pub fn table(&self) -> Option<u32>
        ensures { result ≡ table_of self.now }
    {
        match self {
            Atom::One | Atom::Var(_) => None,
            Atom::Has(table, _) | Atom::Col(table, _, _) => Some(*table),
            Atom::Count(table, _) | Atom::Sum(table, _, _) => Some(*table),
        }
    }

    /// Its key, or its prefix; empty where it speaks of no table.
    pub fn key(&self) -> &[Lin]
        ensures { result.now ≡ key_of self.now }
    {
        match self {
            Atom::One | Atom::Var(_) => &[],
            Atom::Has(_, key) | Atom::Col(_, key, _) => key.as_slice(),
            Atom::Count(_, prefix) | Atom::Sum(_, prefix, _) => prefix.as_slice(),
        }
    }

    /// The column of which it speaks, if it speaks of one.
    pub fn column(&self) -> Option<u32>
        ensures { result ≡ column_of self.now }
    {
        match self {
            Atom::One | Atom::Var(_) | Atom::Has(_, _) | Atom::Count(_, _) => None,
            Atom::Col(_, _, column) | Atom::Sum(_, _, column) => Some(*column),
        }
    }

    /// Whether it speaks of all rows under a prefix.
    pub fn is_of_prefix(&self) -> bool
        ensures { result ≡ is_of_prefix self.now }
    {
        match self {
            Atom::One | Atom::Var(_) | Atom::Has(_, _) | Atom::Col(_, _, _) => false,
            Atom::Count(_, _) | Atom::Sum(_, _, _) => true,
        }
    }

    /// The atom with this key, or prefix, in place of its own; one that speaks of no table has none.
    pub fn with_key(&self, key: Seq<Lin>) -> Atom
        ensures { result ≡ with_key self.now key }
    {
        match self {
            Atom::One => Atom::One,
            Atom::Var(variable) => Atom::Var(*variable),
            Atom::Has(table, _) => Atom::Has(*table, key),
            Atom::Col(table, _, column) => Atom::Col(*table, key, *column),
            Atom::Count(table, _) => Atom::Count(*table, key),
            Atom::Sum(table, _, column) => Atom::Sum(*table, key, *column),
        }
    }

    /// Whether two atoms speak of a table, and are of one kind, table and column, with keys of one length.
    pub fn is_alike(&self, other: &Atom) -> bool
        ensures { result ≡ alike self.now other.now }
    {
        self.table().is_some()
            && self.kind() == other.kind()
            && self.table() == other.table()
            && self.column() == other.column()
            && self.key().len() == other.key().len()
    }
}
