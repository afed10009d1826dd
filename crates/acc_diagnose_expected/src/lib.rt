//! The word of a text with which no design goes on, and what could stand there.
#![tactic(auto)]

mod around;
mod asked;
mod bytes;
mod hints;
mod mistakes;
mod signs;
mod syntax;
mod wanted;

pub use syntax::syntax_spot;
