//! What the printed text of a design reads back as, as laws.
#![tactic(auto)]

pub mod laws;

pub use acc_parse::{ParseError, parse};
