//! Which statement of a design's text stands on a line of its print.
#![tactic(auto)]

mod places;
mod shown;
mod sources;

pub use sources::source_of;
