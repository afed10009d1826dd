//! The obligations of a clause after actions, one a goal, from what they assume.
#![tactic(auto)]

pub mod clauses;
pub mod errors;
mod goals;
pub mod sequents;
pub mod small_goals;

pub use acc_oblig_named::forms::{
    alone, is_less, is_nothing, is_zero, lin_form, negated_form, not_all_none, one_term, times,
};
pub use acc_oblig_named::naming::{named_lin, own_naming};
pub use clauses::goals_after;
pub use errors::ObligError;
pub use sequents::{Shared, add_clause, add_goals, at_case, sequent};
pub use small_goals::{add_goal, add_small_goals};
