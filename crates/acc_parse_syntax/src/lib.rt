//! The syntax tree of a design, how it is spelled in words, and reading its values, forms, clauses and tables: exactly what the
//! grammar spells, and exactly where it stops.
#![tactic(auto)]

pub mod boxes;
mod clauses;
mod forms;
pub mod parsers;
mod tables;
pub mod trees;
mod values;
