//! Where an obligation comes from, as text; and numbers and paths as text.
#![tactic(auto)]

pub mod origins;

pub use origins::{push_origin, push_path};
