//! Weakest preconditions: the relation that is true before actions exactly where a relation is true after them.
#![tactic(auto)]

mod changes;
mod errors;
mod gains;
mod lins;
mod preconditions;
mod unders;

pub use errors::WpError;
pub use preconditions::wp;
