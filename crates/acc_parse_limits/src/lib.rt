//! The limits on a design's text: the first statement that passes one, and which.
#![tactic(auto)]

mod clauses;
mod designs;
mod steps;
mod types;
mod values;
mod walks;

pub use acc_base::limits::Limit;
pub use designs::{first_fault, lowest_on};
pub use walks::Walk;
