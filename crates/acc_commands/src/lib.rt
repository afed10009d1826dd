//! What each command makes of the files that it is given, and of the disk.
#![tactic(auto)]

mod commands;
pub mod laws;

pub use acc_commands_files::{InTurn, Searchers};
pub use acc_commands_journals::{
    Alone, Command, Crew, Engine, Request, asks_journal, command_of, files_in, help_text,
    points_in, read_all,
};
pub use acc_journalled::{Answer, Ended, Ending, IndexStore};
pub use commands::run;
