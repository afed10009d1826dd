//! Whether a design is accepted with the bytes of a certificate, as a line.
#![tactic(auto)]

mod checks;
pub mod laws;

pub use checks::{Admission, Report, admit, check};
pub use laws::one_report;
