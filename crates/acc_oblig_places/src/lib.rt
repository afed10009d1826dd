//! The points and the paths of a design, each with where it stands, and how few there are of them.
#![tactic(auto)]

pub mod places;

pub use places::{PathPlace, PointPlace, all_paths, paths_of, points_of};
