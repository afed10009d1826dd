//! A stream of a journal's bytes, fed in pieces: the items of the batches that came whole, and the first fault.
#![tactic(auto)]

mod batches;
mod bodies;
mod faults;
mod heads;
pub mod laws;
mod numbers;
mod queues;
mod streams;

pub use faults::{Fault, StreamError};
pub use streams::Stream;
