//! A schedule over a journal: the calls of an engine take their turns in a given order and then are ended, each end made durable before
//! the next turn; and what is told of it.
#![tactic(auto)]

mod counting;
mod engines;
mod finishing;
mod openings;
mod replies;
mod schedules;
mod sealing;
mod settling;
mod turns;

pub use counting::transactions;
pub use engines::over_journal;
pub use finishing::finish;
pub use schedules::{Scheduled, Stopped, schedule};
pub use settling::Settling;
