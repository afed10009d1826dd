//! Searches for the proofs of obligations, each in a thread of its own.
#![tactic(auto)]

mod searches;

pub use acc_cert_prove::{InTurn, Searchers, Searching};
pub use searches::{at_once, search_in_threads};
