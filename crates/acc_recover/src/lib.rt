//! Recovery: the events that a journal holds are done again, the states that it holds are compared, and what is left unfinished is
//! compensated.
#![tactic(auto)]

mod comparing;
mod endings;
mod errors;
pub mod laws;
mod recovered;
mod replaying;
mod tellings;

pub use acc_machine::State;
pub use comparing::is_text_of;
pub use errors::RecoverError;
pub use recovered::{Recovered, recover};
