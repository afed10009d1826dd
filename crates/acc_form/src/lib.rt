//! The form rules of a design: the lowest one that it breaks, and the first line of its print that breaks it.
#![tactic(auto)]

mod clauses;
mod designs;
mod ends;
mod entries;
mod names;
mod ranges;
mod rules;
mod sizes;
mod steps;
mod types;
mod walks;
mod widths;

pub use designs::well_formed;
pub use entries::undos_keep;
pub use rules::FormError;
