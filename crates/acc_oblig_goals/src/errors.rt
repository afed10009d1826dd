//! Why the obligations of a design aren't given.
ghost use Rattle.std.specs.Prelude.{◌≡◌};
ghost use Rattle.acc_oblig_goals.specs.declared.errors.ObligError.TheVariants.{Memory as OutOfMemory};

use acc_base::sequents::Origin;
use std::alloc::{AllocError, AllocFailed};

/// Why the obligations of a design aren't given.
#[derive(Drop)]
pub enum ObligError {
    /// A number of an obligation, or of a step of its computation, is too large: a coefficient or a constant of a difference of
    /// keys beyond 64 bits, or another number beyond 2^120 on either side of 0. The first such obligation comes from here.
    Wide(Origin),
    /// Memory ran out.
    Memory,
}

impl From<AllocError> for ObligError {
    ghost from_gives = { λ _ e. e ≡ OutOfMemory };

    fn from(_: AllocError) -> Self {
        ObligError::Memory
    }
}

impl<T: Drop> From<AllocFailed<T>> for ObligError {
    ghost from_gives = { λ _ e. e ≡ OutOfMemory };

    fn from(_: AllocFailed<T>) -> Self {
        ObligError::Memory
    }
}
