//! An engine that threads share: under one lock, with a pass for each caller that tells what it has seen of the one history.
#![tactic(auto)]

mod groups;
mod locked;
mod shared_engine;
mod turns;

pub use shared_engine::Shared;
