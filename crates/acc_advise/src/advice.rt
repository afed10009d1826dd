//! What an advisor is asked, and what it answers.
ghost use Rattle.std.specs.Prelude.{◌≡◌};
ghost use Rattle.acc_advise.specs.declared.advice.AdviseError.TheVariants.{Memory as OutOfMemory};

use acc_axioms::nodes::Proof;
use acc_base::designs::{At, Side};
use acc_base::forms::Rel;
use acc_base::sequences::Seq;
use acc_base::sequents::Origin;
use std::alloc::AllocError;

/// What an advisor is asked: which entry lets the step of a point go where another is held.
#[derive(Clone, Copy)]
pub struct Question {
    pub held: At,
    pub step: At,
    pub side: Side,
}

/// Why the proof of an obligation isn't found.
#[derive(Drop)]
pub enum Obstacle {
    /// A branch of its search stays open: all that is known in it, and a point at which that holds, as of a search that isn't `Proved`.
    Open(Seq<Rel>, Seq<(i128, i128)>),
    /// There are too many instances or splits.
    Crowded,
    /// A number of the search is too large.
    Wide,
    /// A system of an elimination has too many relations.
    Many,
}

/// A pair of a held local and a local of the step that can't be added to an entry: the first obligation that isn't proved then comes from
/// here, for this reason.
#[derive(Drop)]
pub struct Beyond {
    pub pair: (u32, u32),
    pub origin: Origin,
    pub why: Obstacle,
}

/// What is advised.
#[derive(Drop)]
pub enum Advice {
    /// The step needs no entry: the proofs that it spares the held point, in the order of their obligations.
    Free(Seq<Proof>),
    /// The entry with these pairs, and the proofs that the step spares the held point beside it, in the order of their obligations. Each
    /// other pair is beyond.
    Keyed(Seq<(u32, u32)>, Seq<Proof>, Seq<Beyond>),
}

/// Why nothing is advised.
#[derive(Drop)]
pub enum AdviseError {
    /// A number of an obligation is too large. The first such obligation comes from here.
    Wide(Origin),
    /// Memory ran out.
    Memory,
}

impl From<AllocError> for AdviseError {
    ghost from_gives = { λ _ e. e ≡ OutOfMemory };

    fn from(_: AllocError) -> Self {
        AdviseError::Memory
    }
}
