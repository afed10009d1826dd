//! Systems of relations between numbered unknowns, and their elimination: first by equations, then by pairs of bounds.
#![tactic(auto)]

pub mod laws;
pub mod systems;

pub use laws::{a_false_constant_is_a_sum, multipliers_are_signed, multipliers_rise};
pub use systems::{
    Bounded, Eliminated, MOST_RELATIONS, Reduced, Replaced, admit, admit_all, cross_each,
    eliminate_all, form_of, is_constant, is_false, is_repetition, replace_all, take_equation,
};
