//! The values that a search tries for a hypothesis's own variables, read off the atoms of a sequent.
#![tactic(auto)]

pub mod atoms;
pub mod choices;
pub mod listing;
pub mod patterns;
pub mod targets;
pub mod values;

pub use atoms::{place_in, same_lins};
pub use choices::by_patterns;
pub use listing::InstError;
pub use patterns::{Pattern, places_of};
pub use targets::{Target, copied_lins, targets_of};
pub use values::add_few;
