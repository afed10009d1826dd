//! The picture of a design, in DOT, the language of Graphviz.
#![tactic(auto)]

mod nodes;
mod paths;
mod pictures;

pub use pictures::draw;
