//! Calls of the machine with locks over an accepted design, for programs that play cases over them: the calls of a fresh state and the
//! questions about it, item by item.
#![tactic(auto)]

mod begins;
mod dumps;
pub mod states;
mod turns;

pub use states::push_answers;
