//! Stages of equations, and what they make of one more relation: led through, or carried along.
#![tactic(auto)]

pub mod carrying;
pub mod copies;
pub mod following;
pub mod stages;

pub use carrying::{Note, Trail, carry};
pub use copies::{copied_row, copied_rows, copied_stop};
pub use following::{add_left, follow, follow_step, left_first};
pub use stages::{Path, Stage, Step, begin, set_aside};
