//! The questions by name.
use crate::decided::{push_decided, push_decided_with, push_pairs, push_upper_bounds};
use crate::parts::{push_collected, push_collected_unknowns, push_difference};
use crate::refuted::push_refuted;
use crate::spelled::parted;
use crate::sums::{push_before, push_sum};
use std::alloc::{AllocError, Global};

/// Pushes what the question of a line answers.
pub fn push_answer(alloc: Global, out: &mut String, line: &str) -> Result<(), AllocError> {
    let (verb, words) = parted(line, ": ");
    match verb {
        "sum" => push_sum(alloc, out, words),
        "collect" => push_collected(alloc, out, words),
        "difference" => push_difference(alloc, out, words),
        "unknowns" => push_collected_unknowns(alloc, out, words),
        "wp" => push_before(alloc, out, words),
        "refutes" => push_refuted(alloc, out, words),
        "decide" => push_decided(alloc, out, words),
        "with" => push_decided_with(alloc, out, words),
        "upper bounds" => push_upper_bounds(alloc, out, words),
        "pairs" => push_pairs(alloc, out, words),
        _ => out.push_str("no question"),
    }
}
