//! Relations that are kept, of which elimination decides again and again, each time with one more behind them.
#![tactic(auto)]

mod keeping;
pub mod solver;

pub use acc_elim_decisions::verdicts::{ElimError, Verdict};
pub use solver::Solver;
