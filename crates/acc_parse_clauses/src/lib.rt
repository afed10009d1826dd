//! What the values, rows and clauses of a syntax tree stand for: each name is replaced by its number, and terms of one unknown are
//! collected.
#![tactic(auto)]

pub mod clauses;
mod forms;
pub mod rows;
pub mod scopes;
pub mod values;
