//! The shape of certificates as JSON texts, and how they are read.
#![tactic(auto)]

pub mod certificates;
pub mod errors;
pub mod nodes;
pub mod numbers;
pub mod parts;
pub mod values;
pub mod words;

pub use certificates::read;
pub use errors::CertError;
