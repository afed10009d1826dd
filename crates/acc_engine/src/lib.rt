//! The engine: a state and its journal in step, and the calls of a script.
#![tactic(auto)]

mod acks;
mod engines;
mod errors;
mod marks;
mod noting;
mod places;
mod sealing;

pub use engines::Engine;
pub use errors::{Drawn, EngineError};
pub use sealing::LONGEST_SEAL;
