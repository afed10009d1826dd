//! A schedule: calls that take their turns in a given order by the rules of locks, and then are ended; and what is told of it.
#![tactic(auto)]

pub mod laws;
mod locked;
mod schedules;

pub use locked::Locked;
pub use schedules::{Scheduled, schedule};
