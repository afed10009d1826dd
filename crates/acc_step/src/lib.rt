//! What a step of a transaction does.
#![tactic(auto)]

mod actions;
mod changes;
pub mod effects;
mod errors;
pub mod looks;
mod lookups;
mod paths;
mod ranges;
mod reads;
mod values;
mod variables;
mod walks;
mod wide_sums;
mod writers;

pub use effects::{StepEffect, effect};
pub use errors::StepError;
pub use looks::{Outlook, look};
