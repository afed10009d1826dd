//! The tokens and the words of a design's text: what its bytes are, read exactly, or the line of the first byte that
//! doesn't fit.
#![tactic(auto)]

pub mod language;
pub mod lexers;
mod parts;
mod readers;
mod scans;
pub mod signs;
pub mod texts;
pub mod tokens;
pub mod words;

pub use lexers::{LexError, lex};
pub use signs::{keyword, spelling};
pub use tokens::{Kind, Token};
pub use words::{Sign, Word};
