//! What a point with which a search ends shows.
#![tactic(auto)]

pub mod laws;

pub use laws::{a_point_meets_the_relations, rows_stay};
