//! An auditor: it judges a list of events of a design by the design's assertions alone, without a certificate.
#![tactic(auto)]

pub mod audits;
mod frames;
pub mod laws;
mod steps;
mod totals;
mod writes;

pub use audits::audit;
pub use steps::{AuditError, AuditFinding};
