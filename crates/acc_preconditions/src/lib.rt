//! What a relation's weakest precondition is, and that it is true before actions exactly where the relation is true after them.
#![tactic(auto)]

pub mod laws;

pub use laws::a_path_leaves_the_rows_after_its_actions;
