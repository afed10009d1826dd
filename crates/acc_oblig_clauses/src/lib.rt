//! The obligations of a clause after a path.
#![tactic(auto)]

pub mod paths;

pub use acc_oblig_assumptions::extremes::own_name;
pub use acc_oblig_assumptions::settings::{
    Setting, add_frame_bounds, add_own_clauses, add_step_rels, after_naming, behind, last_names,
    numbers_from, path_actions, path_rels, step_bounds, step_hyps, step_vars, with_name, with_self,
};
pub use acc_oblig_assumptions::{alone, lin_form, named_lin, negated_form};
pub use acc_oblig_goals::errors::ObligError;
pub use acc_oblig_goals::sequents::Shared;
pub use acc_oblig_goals::small_goals::add_small_goals;
pub use paths::{Cause, add_path_clause, path_origin, path_setting};
