//! The names of a design: the first statement that defines one a second time, or uses one that isn't defined.
#![tactic(auto)]

mod clauses;
mod designs;
mod entries;
mod members;
pub mod names;
mod rows;
mod scopes;
mod steps;
mod tables;
mod types;
mod values;

pub use designs::{DesignNames, names_of};
pub use members::{Members, Types};
pub use names::NameIndex;
pub use tables::Tables;
