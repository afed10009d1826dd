//! A journal's bytes, judged by a design: whether they are a journal of it, and what an audit of its events tells.
#![tactic(auto)]

mod journals;
pub mod judging;
pub mod laws;
pub mod lines;

pub use journals::{JudgeError, Judgement};
pub use judging::judge;
pub use lines::push_judgement;
