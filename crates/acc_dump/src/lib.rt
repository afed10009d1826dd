//! The rows of a state as text.
#![tactic(auto)]

mod dumps;

pub use dumps::{dump, push_parts};
