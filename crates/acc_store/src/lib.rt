//! Rows that are kept in order, and changed by writes.
#![tactic(auto)]

mod changes;
mod entries;
pub mod inline;
mod maps;
mod places;
mod runs;
mod slots;
pub mod stores;
mod sums;
mod walks;
pub mod writes;

pub use inline::Inline;
pub use stores::{MapStore, Store, StoreError};
pub use writes::Write;
