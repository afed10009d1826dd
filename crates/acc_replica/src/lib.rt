//! A replica: it follows the bytes of a journal, in whatever pieces they come, and is the replay of the batches that came whole.
#![tactic(auto)]

mod advancing;
mod errors;
pub mod laws;
mod replicas;

pub use errors::{Advanced, ReplicaError};
pub use replicas::Replica;
