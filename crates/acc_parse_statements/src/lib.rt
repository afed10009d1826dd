//! The statements of a design's text: how many there are, and on which line each of them ends.
#![tactic(auto)]

mod counts;
mod laws;
pub mod lines;
mod statements;

pub use counts::ends;
pub use laws::{each_statement_ends, one_line_each};
pub use statements::{Line, line_of};
