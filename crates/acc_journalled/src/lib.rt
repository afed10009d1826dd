//! Commands over a journal on a disk: making one for a design, recovering it, telling of the recovered state, and making a new one of it.
#![tactic(auto)]

mod answers;
mod commands;
mod conditions;
pub mod laws;
mod lines;
mod migrating;
mod replies;
mod rows;
mod sealing;
mod verifying;

pub use acc_index_store::IndexStore;
pub use answers::{Answer, Ended, Ending, Wanted, unrun};
pub use commands::{init_journal, recover_journal};
pub use conditions::{key_against, push_false};
pub use lines::{not_recovered, one_line};
pub use migrating::migrate_journal;
pub use rows::empty_rows;
pub use sealing::recover_sealed;
pub use verifying::verify_journal;
