//! What each command over a journal makes of the files that it is given, and of the disk.
#![tactic(auto)]

pub mod bookings;
pub mod journals;
pub mod migrations;
pub mod recoveries;
pub mod runs;
pub mod verifications;

pub use acc_commands_inputs::{
    Command, Request, asks_journal, command_of, files_in, help_text, points_in, read_all,
    version_text,
};
pub use acc_journalled::IndexStore;
pub use acc_running::{Alone, Crew, Engine};
pub use bookings::book_files;
pub use journals::init_file;
pub use migrations::migrate_files;
pub use recoveries::recover_files;
pub use runs::{run_files, work_files};
pub use verifications::verify_files;
