//! Who works an engine's calls before their caller ends what is left.
#![tactic(auto)]

mod crews;

pub use acc_engine::Engine;
pub use crews::{Alone, Called, Crew, Workable};
