//! Relations read into rows of numbered unknowns.
#![tactic(auto)]

pub mod readings;

pub use readings::{add_names, place_of, read_next, rows_of, unknowns_of};
