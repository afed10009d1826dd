//! Checkpoints: the rows of a state as text, both ways.
#![tactic(auto)]

mod errors;
pub mod laws;
mod lengths;
mod order;
mod reading;
mod writing;

pub use errors::CkptError;
pub use lengths::text_len;
pub use reading::read;
pub use writing::text;
