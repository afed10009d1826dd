//! Proofs of sequents, and whether a proof is one.
#![tactic(auto)]

pub mod checks;
pub mod errors;
pub mod facts;
pub mod laws;

pub use checks::proves;
pub use errors::ProofError;
pub use laws::a_proof_implies_its_sequent;
