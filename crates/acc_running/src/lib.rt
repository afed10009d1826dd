//! A script's calls over the journal of a disk, scheduled in an order or worked by a crew: from its recovery to the last settling.
#![tactic(auto)]

mod engines;
pub mod laws;
mod runs;

pub use acc_crew::{Alone, Crew};
pub use acc_engine::Engine;
pub use runs::{schedule_journal, work_journal};
