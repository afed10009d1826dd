//! The obligations on begins, on variants, on ends, and on no rows.
#![tactic(auto)]

pub mod begins;
pub mod clears;
pub mod empty;
mod resting;
pub mod variants;

pub use begins::add_begins;
pub use clears::add_clears;
pub use empty::add_empty;
pub use variants::add_variants;
