//! The axioms that a branch of a search may try, kind by kind.
#![tactic(auto)]

pub mod candidates;
pub mod copies;
pub mod kinds;
mod names;
pub mod schemas;

pub use copies::{copied_numbers, copied_rels, copied_schemas};
pub use kinds::all_kinds;
pub use schemas::is_among;
