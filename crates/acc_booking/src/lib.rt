//! The shipped booking design: seats of flights and rooms of hotels, which are booked together; a test that no more is booked than there
//! is, and the law that the design keeps to it.
#![tactic(auto)]

mod checks;
pub mod columns;
mod designs;
pub mod laws;
mod texts;

pub use checks::check;
pub use designs::{BookError, shipped, text};
