//! An index of transactions by what they forbid: who bars a step, found by keys.
#![tactic(auto)]

mod asks;
mod indexes;
mod roles;
mod standings;

pub use indexes::{LockError, LockIndex};
