//! The obligations that the numbers of undo steps stay in range.
#![tactic(auto)]

mod action_numbers;
mod found;
pub mod ranges;
mod read_numbers;

pub use ranges::add_ranges;
