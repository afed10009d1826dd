//! What an obligation assumes where a path is taken: what holds at its point, what its reads make true, and that its guard is.
#![tactic(auto)]

pub mod extremes;
mod guards;
pub mod reads;
pub mod settings;

pub use acc_oblig_named::forms::{alone, lin_form, negated_form};
pub use acc_oblig_named::naming::{named_lin, own_naming};
pub use acc_oblig_places::places::PathPlace;
pub use extremes::{add_read_hyps, guarded, own_name};
pub use reads::add_read_rels;
pub use settings::{
    Setting, add_frame_bounds, add_own_clauses, add_step_rels, after_naming, behind, last_names,
    numbers_from, path_actions, path_rels, step_bounds, step_hyps, step_vars, with_name, with_self,
};
