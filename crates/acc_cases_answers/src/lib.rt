//! What command lines answer over files and disks in memory, printed at once: parts of the program that plays their cases.
#![tactic(auto)]

pub mod answers;
pub mod designs;
pub mod faults;
pub mod folders;
pub mod journals;
pub mod runs;
