//! Cases of what the readers of a design's text answer: a line is a call and the text that it is asked of.
//!
//! In a text `\n` stands for a line feed and `\07` for the byte 7. A text of several parts, `OLD|FIRST|PIECE|COUNT|LAST`, is
//! the base with other bytes in place of a piece of it: so many pieces, between a first and a last part. `base: TEXT` gives the base of
//! the lines behind it.
#![tactic(auto)]

mod answers;
mod cases;
mod designs;
mod statements;
mod trees;
mod words;

pub use answers::answer;
