//! The journal: a base text and events, each batch of them on the disk before it counts.
#![tactic(auto)]

mod attaching;
mod contents;
mod creating;
mod errors;
mod filled;
mod items;
pub mod laws;
mod loading;
mod parts;
mod reading;
mod repair;
mod sealing;
mod spelling;
mod staging;
mod wal;
mod writing;

pub use contents::{Journal, counted};
pub use creating::FIRST_BYTES;
pub use errors::WalError;
pub use items::{Item, Seal};
pub use spelling::spelled;
pub use wal::Wal;
pub use writing::{LONGEST_TURN, SHORTEST_EVENT, event_len};
