//! What a search finds.
ghost use Rattle.std.specs.Prelude.{◌≡◌};
ghost use Rattle.acc_prover.specs.declared.found.SearchError.TheVariants.{Memory as OutOfMemory};

use acc_axioms::nodes::Proof;
use acc_base::forms::Rel;
use acc_base::sequences::Seq;
use std::alloc::AllocError;

/// What a search finds.
#[derive(Drop)]
pub enum Found {
    /// All branches are closed; this is a proof of the sequent.
    Proved(Proof),
    /// A branch without splits left is open: all that is known in it, and a point at which that holds, for each unknown in the order of
    /// first appearance a numerator and a denominator above 0.
    Unproved(Seq<Rel>, Seq<(i128, i128)>),
}

/// Why a search finds nothing.
#[derive(Clone, Copy)]
pub enum SearchError {
    /// There are over 4,096 instances, or over 256 splits.
    Crowded,
    /// A number is beyond 2^120 on either side of 0, or an instance's is too large.
    Wide,
    /// A system of an elimination has more than 4,096 relations.
    Many,
    /// Memory ran out.
    Memory,
}

impl From<AllocError> for SearchError {
    ghost from_gives = { λ _ e. e ≡ OutOfMemory };

    fn from(_: AllocError) -> Self {
        SearchError::Memory
    }
}
