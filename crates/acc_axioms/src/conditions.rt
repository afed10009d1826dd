//! When an axiom may be used.
ghost use Rattle.std.specs.Prelude.{◌≡◌, slice_get};
ghost use Rattle.acc_base.specs.FormEquality.{lin_eq};
ghost use Rattle.acc_base.specs.PrivateRows.{is_own_table};
ghost use Rattle.acc_axioms.specs.Axioms.{is_table, is_whole, is_table_atom, is_plain, own_number, variable};
ghost use Rattle.acc_axioms.specs.Axioms.{ends_in, ends_in_own};

use acc_base::designs::Design;
use acc_base::forms::{Atom, Lin, Unknown};
use acc_base::sequents::Sequent;

/// Whether a number is that of a table.
pub fn is_table(design: &Design, t: u32) -> bool
    ensures { result ≡ is_table design.now t }
{
    (t as usize) < design.tables.len()
}

/// Whether a key has as many parts as its table's keys.
pub fn is_whole(design: &Design, t: u32, k: &[Lin]) -> bool
    ensures { result ≡ is_whole design.now t k.now }
{
    match design.tables.as_slice().get(t as usize) {
        Some(table) => k.len() == table.width as usize,
        None => false,
    }
}

/// Whether a table is private.
pub fn is_private(design: &Design, t: u32) -> bool
    ensures { result ≡ is_own_table (slice_get design.now.tables t) }
{
    match design.tables.as_slice().get(t as usize) {
        Some(table) => table.own,
        None => false,
    }
}

/// Whether an atom is one of a table.
pub fn is_table_atom(design: &Design, atom: &Atom) -> bool
    ensures { result ≡ is_table_atom design.now atom.now }
{
    match atom.table() {
        Some(table) => is_table(design, table),
        None => false,
    }
}

/// Whether an unknown stands under nothing.
pub fn is_plain(u: &Unknown) -> bool
    ensures { result ≡ is_plain u.now }
{
    u.under.len() == 0
}

/// Whether a linear value is a variable.
fn is_variable(l: &Lin, x: usize) -> bool
    ensures { result ≡ lin_eq l.now (variable x) }
{
    match l.coeffs.as_slice() {
        [(v, n)] => *v as usize == x && *n == 1 && l.constant == 0,
        _ => false,
    }
}

/// Whether a key ends in a variable.
fn ends_in(x: usize, k: &[Lin]) -> bool
    ensures { result ≡ ends_in (variable x) k.now }
{
    match k.last() {
        Some(last) => is_variable(last, x),
        None => false,
    }
}

/// The variable that is the own number: that behind the locals of the type at the origin's point.
fn own_number(design: &Design, sequent: &Sequent) -> Option<usize>
    ensures { result ≡ own_number design.now sequent.now }
{
    match &sequent.origin.at {
        Some(at) => match design.types.as_slice().get(at.ty as usize) {
            Some(ty) => Some(ty.locals.len()),
            None => None,
        },
        None => None,
    }
}

/// Whether a key ends in the own number.
pub fn ends_in_own(design: &Design, sequent: &Sequent, k: &[Lin]) -> bool
    ensures { result ≡ ends_in_own (own_number design.now sequent.now) k.now }
{
    match own_number(design, sequent) {
        Some(x) => ends_in(x, k),
        None => false,
    }
}
