//! The obligations on the paths of a design: what each leaves for its target, what it keeps, and the rows that it changes.
#![tactic(auto)]

pub mod always;
mod entries;
mod names;
mod orders;
pub mod promises;
pub mod spares;
mod tables;
pub mod there;

pub use acc_oblig_goals::ObligError;
pub use always::add_always;
pub use promises::add_promises;
pub use spares::{add_spare_among, add_spares};
pub use there::add_there;
