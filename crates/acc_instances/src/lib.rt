//! Instances of hypotheses: relations at linear values.
#![tactic(auto)]

pub mod coefficients;
pub mod instances;
pub mod summands;
pub mod values;

pub use coefficients::{add_coefficient, drop_zeros, narrow, narrow_product, narrow_sum};
pub use instances::relation_at;
pub use summands::{add_lin, add_parts, add_summand};
pub use values::{lins_at, value_for};
