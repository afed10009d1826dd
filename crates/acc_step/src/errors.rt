//! Why a step has no effect.
ghost use Rattle.std.specs.Prelude.{◌≡◌};
ghost use Rattle.acc_step.specs.declared.errors.StepError.TheVariants.{Memory as OutOfMemory};

use std::alloc::{AllocError, AllocFailed};

/// Why a step has no effect.
#[derive(Clone, Copy, PartialEq, Eq)]
pub enum StepError {
    /// A number of the step leaves its range, ±2^45; or there is no such step, or no path of it is open.
    Range,
    /// Memory ran out.
    Memory,
}

impl From<AllocError> for StepError {
    ghost from_gives = { λ _ e. e ≡ OutOfMemory };

    fn from(_: AllocError) -> Self {
        StepError::Memory
    }
}

impl<T: Drop> From<AllocFailed<T>> for StepError {
    ghost from_gives = { λ _ e. e ≡ OutOfMemory };

    fn from(_: AllocFailed<T>) -> Self {
        StepError::Memory
    }
}
