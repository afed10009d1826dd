//! The program as one call: the words of the command line, a shelf, a sink and a disk go in, a status comes out.
#![tactic(auto)]

pub mod laws;
mod status;
mod top;

pub use acc_commands::{
    Alone, Command, Ending, InTurn, IndexStore, Searchers, asks_journal, help_text,
};
pub use status::Status;
pub use top::{Done, acc};
