//! Command lines answered in memory, disks in memory, designs whose obligations are to be proved, and texts with a piece exchanged, for
//! programs that play cases of command lines.
#![tactic(auto)]

pub mod disks;
pub mod memory;
pub mod proofs;
pub mod texts;

pub use acc_cli::{Done, InTurn, IndexStore, Searchers, acc, asks_journal, help_text};
