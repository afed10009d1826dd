//! What the obligations of a design are, and what they are worth: where they are all true, the design is sound.
#![tactic(auto)]

pub mod laws;
pub mod naming;

pub use laws::{obligations_are_counted, true_obligations_give_soundness};
pub use naming::Naming;
