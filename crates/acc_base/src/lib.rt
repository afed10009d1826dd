//! Designs, states and events of a stepped transaction engine, as plain values, and what they mean.
#![tactic(auto)]

pub mod atoms;
pub mod bounds;
pub mod buffers;
pub mod collecting;
pub mod designs;
pub mod forms;
pub mod laws;
pub mod limits;
pub mod machines;
pub mod names;
pub mod numbers;
pub mod rules;
pub mod sequences;
pub mod sequents;
pub mod steps;
pub mod sums;
pub mod tables;
