//! The plain machine of steps: transactions take their turns in any order, without locks.
#![tactic(auto)]

mod changes;
mod fittings;
mod frames;
mod machines;
mod takes;
mod transactions;

pub use acc_step::{Outlook, look};
pub use changes::{PlainError, is_asked, limit_of};
pub use machines::Machine;
