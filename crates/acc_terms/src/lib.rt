//! Terms of linear values and of forms: differences, and terms that are collected, one an unknown.
#![tactic(auto)]

mod collecting;
pub mod laws;
mod parts;

pub use collecting::{Terms, collected};
pub use parts::{Part, difference};
