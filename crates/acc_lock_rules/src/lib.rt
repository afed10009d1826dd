//! The rules of locks as rules of plays: what a machine with locks may do in each state, and laws of it. There is no code here.
#![tactic(auto)]

pub use acc_machine::{BeginError, State, TurnError};
