//! The course of a search for a proof of a sequent.
#![tactic(auto)]

mod branches;
pub mod courses;
mod passes;

pub use acc_prover_branch::halts::Halt;
pub use courses::course;
