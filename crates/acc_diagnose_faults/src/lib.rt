//! Which line of a design's text is refused, and which part of its certificate, and why.
#![tactic(auto)]

mod certificates;
mod designs;
mod forms;
mod tokens;

pub use certificates::{CertFault, Judged, judge};
pub use designs::{DesignRefusal, Diagnosed, Diagnosis, diagnose};
pub use tokens::tokens_of;
