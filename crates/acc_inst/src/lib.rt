//! The lists of a sequent: the instances of its hypotheses, and the forms by which a search splits.
#![tactic(auto)]

pub mod instances;
pub mod listing;
pub mod lists;
pub mod making;
pub mod splits;

pub use instances::instances_of;
pub use listing::{InstError, Listed};
pub use lists::{Made, made_lists};
pub use making::{Instance, instances_at};
pub use splits::splits_of;
