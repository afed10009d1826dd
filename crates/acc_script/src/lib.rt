//! Scripts and orders, read line by line, and the printed lines of a play.
#![tactic(auto)]

mod cuts;
mod errors;
mod lines;
mod numbers;
mod orders;
mod scripts;
mod tapes;

pub use errors::ScriptError;
pub use lines::{
    push_events, push_full, push_over, push_reply, push_stuck, push_turn, push_unbegun,
    push_unfinished, push_unsettled,
};
pub use orders::order;
pub use scripts::calls;
