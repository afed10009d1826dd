//! Proofs without the instances and axioms that nothing behind them uses.
#![tactic(auto)]

pub mod pruning;
mod renumbering;

pub use pruning::pruned;
