//! Whether the numbers of proofs are within the bounds of a certificate's file.
#![tactic(auto)]

pub mod bounded;
pub mod nodes;
pub mod numbers;
pub mod values;

pub use bounded::Bounded;
pub use numbers::{is_index, is_narrow, is_near};
