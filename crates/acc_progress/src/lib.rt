//! How far a long call is, told while it goes on.
#![tactic(auto)]

mod progress;
mod silent;

pub use progress::{BenchPart, Found, Progress};
pub use silent::Silent;
