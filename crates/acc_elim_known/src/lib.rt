//! Systems of which the stage of equations is kept, and asked again and again about one more relation.
#![tactic(auto)]

mod ending;
pub mod known;

pub use known::{Known, Stopped, Whole, carried_on, found, found_with, known_of};
