//! What an elimination decides.
ghost use Rattle.std.specs.Prelude.{◌≡◌};
ghost use Rattle.acc_elim_decisions.specs.declared.verdicts.ElimError.TheVariants.{Memory as OutOfMemory};
ghost use Rattle.acc_elim_decisions.specs.Causes.{cause};

use acc_base::sequences::Seq;
use acc_farkas::errors::FarkasError;
use acc_farkas::refuting::Mults;
use std::alloc::{AllocError, AllocFailed};

/// Whether relations hold at some point.
#[derive(Drop)]
pub enum Verdict {
    /// They hold at no point: with these multipliers their sum is a constant above 0. No multiplier is 0.
    Refuted(Mults),
    /// They hold at this point: for each unknown, in the order of first appearance, a numerator and a denominator above 0.
    Solved(Seq<(i128, i128)>),
}

/// Why nothing is decided.
#[derive(Clone, Copy)]
pub enum ElimError {
    /// A number lies beyond 2^120 on either side of 0.
    Wide,
    /// A system has more than 4,096 relations.
    Many,
    /// Memory ran out.
    Memory,
}

impl From<AllocError> for ElimError {
    ghost from_gives = { λ _ e. e ≡ OutOfMemory };

    fn from(_: AllocError) -> Self {
        ElimError::Memory
    }
}

impl<T: Drop> From<AllocFailed<T>> for ElimError {
    ghost from_gives = { λ _ e. e ≡ OutOfMemory };

    fn from(_: AllocFailed<T>) -> Self {
        ElimError::Memory
    }
}

impl From<FarkasError> for ElimError {
    ghost from_gives = { λ f e. e ≡ cause f };

    fn from(e: FarkasError) -> Self {
        match e {
            FarkasError::Wide => ElimError::Wide,
            FarkasError::Memory => ElimError::Memory,
        }
    }
}
