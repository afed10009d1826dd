//! Rows, with how many there are and what a column adds up to under the prefixes that are asked for.
#![tactic(auto)]

mod answers;
pub mod asked;
mod batches;
mod indexes;
pub mod prefixes;
pub mod stores;
mod totals;

pub use asked::{add, totals_asked};
pub use prefixes::Prefixes;
pub use stores::IndexStore;
