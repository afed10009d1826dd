//! The first of some clauses that is false of rows, or that can't be told of, and the values that show it.
#![tactic(auto)]

pub mod complaints;
mod counts;
mod reads;
mod searches;

pub use complaints::{first_complaint, first_complaint_since};
pub use searches::Complaint;
