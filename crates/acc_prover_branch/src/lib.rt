//! What a branch of a search knows, and the axioms that are added to it.
#![tactic(auto)]

pub mod axiom_passes;
pub mod halts;
pub mod known;

pub use acc_elim::Verdict;
pub use acc_elim::solver::Solver;
pub use axiom_passes::axioms_pass;
pub use halts::Halt;
pub use known::{Branch, shows_all, try_above_zero, try_below_zero, verdict};
