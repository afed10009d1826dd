//! The text of a design: reads it into the design that it stands for.
#![tactic(auto)]

mod errors;
mod limits;
mod lines;
mod parsers;

pub use errors::ParseError;
pub use parsers::parse;
