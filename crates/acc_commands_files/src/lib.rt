//! What each command without a journal makes of the files that it is given.
#![tactic(auto)]

pub mod advices;
pub mod audits;
pub mod benches;
pub mod designs;
pub mod follows;
pub mod memory_runs;
mod pages;
pub mod plays;
mod points;
pub mod provings;
pub mod schedules;
pub mod workloads;

pub use acc_cert_prove::{InTurn, Searchers, Searching};
pub use advices::advise_file;
pub use audits::audit_files;
pub use benches::bench_files;
pub use designs::{check_files, draw_file, print_file};
pub use follows::follow_files;
pub use memory_runs::{MemoryRun, unplayed};
pub use plays::play_files;
pub use provings::prove_file;
pub use schedules::schedule_files;
pub use workloads::{print_load, print_mix, print_shipped};
