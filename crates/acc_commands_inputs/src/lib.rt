//! What commands are given: the words that name one, the files that they name, the design, script and order in these, the tables of TPC-C
//! in the design, and what is answered where one is refused.
#![tactic(auto)]

mod bookings;
mod designs;
mod files;
pub mod laws;
mod notes;
mod numbers;
mod requests;
mod scales;
mod schemas;
mod scripts;
mod usage;
mod words;

pub use acc_cert_check::{Admission, Report, admit, check};
pub use bookings::{FoundBooking, find_booking};
pub use designs::{ReadDesign, design_refused, read_design};
pub use files::{FileRefusal, file_names, files_in, points_in, read_all};
pub use notes::{help_text, version_text};
pub use numbers::number_of;
pub use requests::{
    AdviceFiles, AuditFiles, CertifiedFiles, FollowFiles, MigrationFiles, PlayFiles, Request,
    ScheduleFiles, WorkerFiles,
};
pub use scales::{AskedScale, Mix};
pub use schemas::{FoundSchema, find_schema};
pub use scripts::{ReadOrder, ReadScript, read_order, read_script};
pub use tpcc_gen::{LARGEST_START, MOST_CUSTOMERS, MOST_ITEMS, MOST_TRANSACTIONS, MOST_WAREHOUSES};
pub use words::{Command, MOST_PIECE, MOST_WORKERS, asks_journal, command_of};
