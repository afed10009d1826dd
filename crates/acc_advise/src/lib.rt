//! Which entry lets a step go where a point is held, and forbids as little as the search can show.
#![tactic(auto)]

pub mod advice;
mod advising;
mod candidates;
pub mod laws;
mod passes;
mod spares;
mod trials;

pub use acc_cert_prove::{InTurn, Searchers, Searching};
pub use advice::{Advice, AdviseError, Beyond, Obstacle, Question};
pub use advising::advise;
pub use laws::{entries_leave_others, entries_leave_widths, known_stays, own_obligations};
