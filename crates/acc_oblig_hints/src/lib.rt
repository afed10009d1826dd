//! The values that the search for an obligation's proof may use, from its point, its path and the design's hints.
#![tactic(auto)]

pub mod hints;

pub use hints::hints_of;
