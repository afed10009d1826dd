//! What a design's syntax tree stands for: each name is replaced by its number, and terms of one unknown are collected.
#![tactic(auto)]

mod designs;
mod entries;
mod steps;
mod types;

pub use designs::{Meaning, meaning_of};
