//! The point that the elimination of a system leaves.
#![tactic(auto)]

mod fractions;
pub mod laws;
pub mod points;
pub mod searching;

pub use laws::a_false_constant_refutes;
pub use points::{place_all, place_all_by, place_by};
pub use searching::{found_by, searched, zeros};
