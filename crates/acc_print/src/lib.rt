//! The one printed spelling of a design.
#![tactic(auto)]

mod clauses;
mod designs;
mod scopes;
mod steps;
mod sums;
mod types;
mod values;

pub use designs::{PrintError, print, push_entry, push_pair_of};
