//! The shipped design of TPC-C: its tables, its transactions and what is asserted of them, and the law that it keeps the standard's
//! consistency conditions.
#![tactic(auto)]

mod always;
pub mod laws;
mod loading;
mod locks;
pub mod shipped;
mod tables;
pub mod texts;
mod transactions;

pub use shipped::{StepsError, text};
