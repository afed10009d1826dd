//! Certificates as JSON texts: how they are written, and that what is written is read back.
#![tactic(auto)]

pub mod nodes;
pub mod spelled;
pub mod values;
pub mod writing;

pub use acc_cert_read::certificates::read;
pub use acc_cert_read::errors::CertError;
pub use writing::write;
