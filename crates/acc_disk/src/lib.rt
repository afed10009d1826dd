//! A file as a journal needs it: what its calls do, and what a crash at any moment may leave.
#![tactic(auto)]

mod disk;
mod draw;
mod file_disk;
mod held_file;
mod history;
mod mem_disk;
mod replay;
mod trouble;

pub use disk::Disk;
pub use file_disk::FileDisk;
pub use held_file::Opening;
pub use mem_disk::{DiskMemory, MemDisk};
pub use trouble::Trouble;
