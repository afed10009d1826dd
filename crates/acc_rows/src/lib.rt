//! Sparse rows of numbers within 2^120, mixed and reduced; what stops an elimination.
#![tactic(auto)]

pub mod divisors;
pub mod numbers;
pub mod rows;
pub mod sparse;
pub mod stops;

pub use rows::{Row, cleared, crossing};
pub use stops::Stop;
