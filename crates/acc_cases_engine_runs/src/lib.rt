//! Runs of an engine over a journal on a disk in memory, for programs that play cases over them: the calls of a script, and the calls of
//! the engine and the questions about it, item by item.
#![tactic(auto)]

pub mod answers;
pub mod calls;
mod items;
pub mod runs;

pub use calls::asked;
pub use runs::{Case, push_recovery, push_run, push_whole};
