//! Why a weakest precondition isn't given.
ghost use Rattle.std.specs.Prelude.{◌≡◌};
ghost use Rattle.acc_wp.specs.declared.errors.WpError.TheVariants.{Memory as OutOfMemory};
ghost use Rattle.acc_wp.specs.Causes.{cause_of};

use acc_base::sums::FormSum;
use std::alloc::{AllocError, AllocFailed};

/// Why a weakest precondition isn't given.
#[derive(Clone, Copy)]
pub enum WpError {
    /// A number on the way is too large: a coefficient or a constant of a difference of keys beyond 64 bits, or another
    /// number beyond 2^120 on either side of 0.
    Wide,
    /// Memory ran out.
    Memory,
}

impl From<AllocError> for WpError {
    ghost from_gives = { λ _ e. e ≡ OutOfMemory };

    fn from(_: AllocError) -> Self {
        WpError::Memory
    }
}

impl<T: Drop> From<AllocFailed<T>> for WpError {
    ghost from_gives = { λ _ e. e ≡ OutOfMemory };

    fn from(_: AllocFailed<T>) -> Self {
        WpError::Memory
    }
}

impl From<FormSum> for WpError {
    ghost from_gives = { λ f e. e ≡ cause_of f };

    fn from(e: FormSum) -> Self {
        match e {
            FormSum::Wide => WpError::Wide,
            FormSum::Memory => WpError::Memory,
        }
    }
}
