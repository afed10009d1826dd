//! Journals on a disk in memory, for programs that play cases over them: made from a design's text or spelled out in digits,
//! recovered, and asked by commands.
#![tactic(auto)]

pub mod answers;
pub mod commands;
pub mod files;
pub mod recoveries;

pub use answers::{push_events, push_recover_error, push_wal_error};
pub use commands::push_command;
pub use files::{create, file, push_file};
pub use recoveries::{fresh, push_counts, push_recovery};
