//! What the end of a search shows.
#![tactic(auto)]

pub mod laws;

pub use acc_prover_course::Halt;
pub use acc_prover_course::courses::course;
pub use laws::{an_open_leaf_is_met, nodes_are_a_proof, nodes_are_near};
