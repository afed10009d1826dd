//! The trial of a clause at values for its variables.
#![tactic(auto)]

mod atoms;
mod forms;
pub mod trials;
mod values;

pub use trials::{Trial, tried};
