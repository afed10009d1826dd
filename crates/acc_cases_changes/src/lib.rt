//! What is shown of the texts of designs, for programs that play cases over them.
#![tactic(auto)]

pub mod designs;
