//! Why an elimination ends before its end.
ghost use Rattle.std.specs.Prelude.{◌≡◌};
ghost use Rattle.acc_rows.specs.declared.stops.Stop.TheVariants.{Memory as OutOfMemory};

use crate::rows::Row;
use std::alloc::{AllocError, AllocFailed};

/// What ends an elimination.
#[derive(Drop)]
pub enum Stop {
    /// A constant relation that is false, with the multipliers that made it.
    Refuted(Row),
    /// A number lies beyond 2^120 on either side of 0.
    Wide,
    /// A system has more than 4,096 relations.
    Many,
    /// Memory ran out.
    Memory,
}

impl From<AllocError> for Stop {
    ghost from_gives = { λ _ e. e ≡ OutOfMemory };

    fn from(_: AllocError) -> Self {
        Stop::Memory
    }
}

impl<T: Drop> From<AllocFailed<T>> for Stop {
    ghost from_gives = { λ _ e. e ≡ OutOfMemory };

    fn from(_: AllocFailed<T>) -> Self {
        Stop::Memory
    }
}
