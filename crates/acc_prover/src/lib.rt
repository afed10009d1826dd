//! The search for a proof of a sequent.
#![tactic(auto)]

pub mod found;
pub mod searching;

pub use found::{Found, SearchError};
pub use searching::search;
