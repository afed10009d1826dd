//! What is told of an open obligation under the design's own names: the point at which it fails, the value that leaves its range, and what
//! would help; and the columns that no assertion speaks of.
#![tactic(auto)]

mod columns;
mod cures;
mod entries;
mod keys;
mod known;
mod meetings;
mod names;
mod numbers;
mod points;
mod promises;
mod rows;
mod values;

pub use columns::push_unspoken;
pub use cures::push_cure;
pub use numbers::push_number;
pub use points::push_values;
