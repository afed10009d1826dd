//! The words of a design's text, read into a syntax tree: exactly what the grammar spells, and exactly where it stops.
#![tactic(auto)]

pub mod designs;
mod entries;
mod own_words;

pub use designs::{SyntaxError, syntax};
