//! Acceptance of designs: each obligation has a proof at its place, and so the design is sound.
#![tactic(auto)]

mod acceptance;
pub mod laws;
mod listing;
mod refusals;

pub use acc_oblig_paths::ObligError;
pub use acceptance::accept;
pub use laws::{none_is_both, refused_for_one_reason};
pub use listing::obligations;
pub use refusals::Refusal;
