//! The search for the proofs of a design's obligations: its certificate, or a line for each obligation that isn't proved.
#![tactic(auto)]

mod findings;
pub mod laws;
pub mod lines;
mod proving;
mod searchers;

pub use acc_prover::found::{Found, SearchError};
pub use findings::{Finding, finding_of, searched};
pub use laws::{points_meet_leaves, proved_once};
pub use lines::{push_ended, push_point};
pub use proving::{Proving, prove};
pub use searchers::{InTurn, Searchers, Searching};
