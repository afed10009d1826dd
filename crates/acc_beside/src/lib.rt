//! Calls of an engine beside the pass of who keeps it: what the one history has more after a call, the pass has seen.
#![tactic(auto)]

mod answers;
mod inside;
mod replies;
mod runs;

pub use inside::{ack_in, draw_in, settle_in, take_in, turn_in};
pub use runs::Run;
