//! Why a sequent has no lists.
ghost use Rattle.std.specs.Prelude.{◌≡◌};
ghost use Rattle.acc_prover_choices.specs.declared.listing.InstError.TheVariants.{Memory as OutOfMemory};
ghost use Rattle.acc_prover_choices.specs.Parts.{cause};

use acc_base::sums::FormSum;
use std::alloc::{AllocError, AllocFailed};

/// Why there are no lists.
#[derive(Clone, Copy)]
pub enum InstError {
    /// There are over 4,096 instances, or over 256 splits.
    Crowded,
    /// A number of an instance is too large.
    Wide,
    /// Memory ran out.
    Memory,
}

impl From<AllocError> for InstError {
    ghost from_gives = { λ _ e. e ≡ OutOfMemory };

    fn from(_: AllocError) -> Self {
        InstError::Memory
    }
}

impl<T: Drop> From<AllocFailed<T>> for InstError {
    ghost from_gives = { λ _ e. e ≡ OutOfMemory };

    fn from(_: AllocFailed<T>) -> Self {
        InstError::Memory
    }
}

impl From<FormSum> for InstError {
    ghost from_gives = { λ f e. e ≡ cause f };

    fn from(e: FormSum) -> Self {
        match e {
            FormSum::Wide => InstError::Wide,
            FormSum::Memory => InstError::Memory,
        }
    }
}
