//! How a search ends.
ghost use Rattle.std.specs.Prelude.{◌≡◌};
ghost use Rattle.acc_prover_branch.specs.declared.halts.Halt.TheVariants.{Memory as OutOfMemory};

use acc_base::forms::Rel;
use acc_base::sequences::Seq;
use std::alloc::{AllocError, AllocFailed};

/// What ends a search before all its branches are closed.
#[derive(Drop)]
pub enum Halt {
    /// A branch without splits left: all that is known in it, and a point at which that holds.
    Open(Seq<Rel>, Seq<(i128, i128)>),
    /// There are too many instances or splits.
    Crowded,
    /// A number is too large.
    Wide,
    /// A system of an elimination has too many relations.
    Many,
    /// Memory ran out.
    Memory,
}

impl From<AllocError> for Halt {
    ghost from_gives = { λ _ e. e ≡ OutOfMemory };

    fn from(_: AllocError) -> Self {
        Halt::Memory
    }
}

impl<T: Drop> From<AllocFailed<T>> for Halt {
    ghost from_gives = { λ _ e. e ≡ OutOfMemory };

    fn from(_: AllocFailed<T>) -> Self {
        Halt::Memory
    }
}
