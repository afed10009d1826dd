//! Elimination: whether relations between unknowns hold at some point, with the multipliers that refute them, or with a point at
//! which they hold; and relations that are read once.
#![tactic(auto)]

pub mod deciding;
pub mod reading;
pub mod verdicts;

pub use deciding::{decide, ended};
pub use reading::{Reading, small_length, unknowns};
pub use verdicts::{ElimError, Verdict};
