//! The machine of an accepted design: transactions that take their turns by the rules of locks.
#![tactic(auto)]

mod blocked;
mod calls;
mod errors;
mod held_up;
mod kept_index;
mod replays;
mod states;

pub use errors::{BeginError, ReplayError, StateError, TakeError, TurnError};
pub use replays::replay;
pub use states::State;
