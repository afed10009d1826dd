//! The kinds of axioms: their numbers in certificates, and what their arguments are.
ghost use Rattle.std.specs.Prelude.{◌≡◌, IfSome};
ghost use Rattle.acc_axioms.specs.Kinds.{axiom_kind, axiom_number, kind_numbered, FindsEach, arguments_of};

use crate::nodes::Schema;
use acc_base::sequences::Exact;

/// A kind of axioms.
#[derive(Clone, Copy, PartialEq, Eq)]
pub enum AxiomKind {
    /// Whether a row is there is 0 or 1.
    Has,
    /// A count isn't negative.
    Count,
    /// A row is counted under each prefix of its key.
    Front,
    /// Two atoms that differ in their keys alone are equal where the keys are.
    Same,
    /// A column of a row that isn't there is 0.
    NoCol,
    /// A sum over no rows is 0.
    NoSum,
    /// The count under a whole key is whether its row is there.
    OneCount,
    /// The sum under a whole key is the column of its row.
    OneSum,
    /// An unknown is its atom where each value that it stands under is 0.
    Opened,
    /// An unknown is 0 where a value that it stands under is not.
    Shut,
    /// Nothing is there at the start of all.
    Empty,
    /// No private row of a transaction is there when it begins.
    Fresh,
}

/// What the arguments of an axiom are, in their order.
#[derive(Clone, Copy, PartialEq, Eq)]
pub enum Arguments {
    /// A table, and a key or a prefix.
    TableKey,
    /// A table, a key or a prefix, and a column or a length.
    TableKeyNumber,
    /// Two unknowns.
    UnknownPair,
    /// An unknown.
    Unknown,
    /// An unknown, the place of a value that it stands under, and a side of 0.
    UnknownPlaceSide,
}

impl AxiomKind {
    /// Its number, from 1, as it stands in certificates.
    pub fn number(self) -> u32
        ensures { result ≡ axiom_number self }
    {
        match self {
            AxiomKind::Has => 1,
            AxiomKind::Count => 2,
            AxiomKind::Front => 3,
            AxiomKind::Same => 4,
            AxiomKind::NoCol => 5,
            AxiomKind::NoSum => 6,
            AxiomKind::OneCount => 7,
            AxiomKind::OneSum => 8,
            AxiomKind::Opened => 9,
            AxiomKind::Shut => 10,
            AxiomKind::Empty => 11,
            AxiomKind::Fresh => 12,
        }
    }

    /// The kind with a number, if there is one.
    #[tactic(auto, unfolding(crate::specs::Kinds::kind_numbered))]
    pub fn of(number: u32) -> Option<AxiomKind>
        ensures value { result ≡ kind_numbered number }
        ensures each { FindsEach result number }
        ensures number { IfSome result (λ k. axiom_number k ≡ number) }
    {
        match number {
            1 => Some(AxiomKind::Has),
            2 => Some(AxiomKind::Count),
            3 => Some(AxiomKind::Front),
            4 => Some(AxiomKind::Same),
            5 => Some(AxiomKind::NoCol),
            6 => Some(AxiomKind::NoSum),
            7 => Some(AxiomKind::OneCount),
            8 => Some(AxiomKind::OneSum),
            9 => Some(AxiomKind::Opened),
            10 => Some(AxiomKind::Shut),
            11 => Some(AxiomKind::Empty),
            12 => Some(AxiomKind::Fresh),
            _ => None,
        }
    }

    /// What its arguments are.
    pub fn arguments(self) -> Arguments
        ensures { result ≡ arguments_of self }
    {
        match self {
            AxiomKind::Has | AxiomKind::Count => Arguments::TableKey,
            AxiomKind::OneCount | AxiomKind::Fresh => Arguments::TableKey,
            AxiomKind::Front | AxiomKind::OneSum => Arguments::TableKeyNumber,
            AxiomKind::NoCol | AxiomKind::NoSum => Arguments::TableKeyNumber,
            AxiomKind::Same => Arguments::UnknownPair,
            AxiomKind::Opened | AxiomKind::Empty => Arguments::Unknown,
            AxiomKind::Shut => Arguments::UnknownPlaceSide,
        }
    }
}

impl Schema {
    pub fn kind(&self) -> AxiomKind
        ensures { result ≡ axiom_kind self.now }
    {
        match self {
            Schema::Has(_, _) => AxiomKind::Has,
            Schema::Count(_, _) => AxiomKind::Count,
            Schema::Front(_, _, _) => AxiomKind::Front,
            Schema::Same(_, _) => AxiomKind::Same,
            Schema::NoCol(_, _, _) => AxiomKind::NoCol,
            Schema::NoSum(_, _, _) => AxiomKind::NoSum,
            Schema::OneCount(_, _) => AxiomKind::OneCount,
            Schema::OneSum(_, _, _) => AxiomKind::OneSum,
            Schema::Opened(_) => AxiomKind::Opened,
            Schema::Shut(_, _, _) => AxiomKind::Shut,
            Schema::Empty(_) => AxiomKind::Empty,
            Schema::Fresh(_, _) => AxiomKind::Fresh,
        }
    }
}

impl Exact for AxiomKind {
    ghost use Rattle.std.proofs.Common.{rules};
    ghost use Rattle.acc_axioms.specs.SchemaEquality.{axiom_kind_decides};

    ghost clone_is = { Prim.search rules };

    ghost eq_is = { axiom_kind_decides };
}
