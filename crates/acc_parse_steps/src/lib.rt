//! The words of a step, read into its tree: what it reads, its paths, what they write and where they end.
#![tactic(auto)]

mod actions;
mod reads;
mod steps;

pub use steps::side;
