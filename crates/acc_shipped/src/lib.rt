//! What the designs share that the program brings along: how their texts are read, and how what they assert is written short.
#![tactic(auto)]

mod texts;

pub use texts::spelled;
