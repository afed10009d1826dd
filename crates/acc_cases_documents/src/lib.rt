//! What documents show: blocks of commands, rows of tables, and the journals that commands name; and whether the program answers so.
#![tactic(auto)]

mod answers;
mod blocks;
pub mod documents;
mod journals;
mod refusals;
mod rows;
