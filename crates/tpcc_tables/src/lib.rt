//! The tables of TPC-C, and its consistency conditions 1 to 9.
#![tactic(auto)]

pub mod amounts;
mod checks;
pub mod columns;
pub mod conditions;
pub mod kinds;
mod lines;
mod rows;
pub mod tables;

pub use conditions::{CheckError, condition, first_wrong};
pub use tables::{SCHEMA, SchemaError, SchemaTable, TableSet, schema};
