//! The workload of TPC-C 5.11 from a number: the script of a load, the script of a mix, and an order for the mix.
#![tactic(auto)]

mod bounds;
mod districts;
mod first_orders;
mod homes;
mod kinds;
mod loads;
mod mixes;
mod new_orders;
mod orders;
mod pushes;
mod runs;
mod scales;
mod words;

pub use bounds::{LARGEST_START, MOST_CUSTOMERS, MOST_ITEMS, MOST_TRANSACTIONS, MOST_WAREHOUSES};
pub use loads::load;
pub use mixes::mix;
pub use orders::order;
pub use scales::Scale;
pub use words::Words;
