//! Rows with their keys, and the values over which the variables of a clause range.
#![tactic(auto)]

pub mod keyed;
mod noted;
mod parts;
pub mod ranges;
mod values;

pub use keyed::KeyedStore;
pub use ranges::range;
