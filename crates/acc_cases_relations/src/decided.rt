//! Systems that are decided by elimination.
use crate::made::{pairs, upper_bounds};
use crate::spelled::{parted, relation, relations};
use crate::verdicts::push_verdict;
use acc_elim::solver::Solver;
use acc_elim_decisions::deciding::decide;
use std::alloc::{AllocError, Global};

/// Pushes the verdict of relations.
pub fn push_decided(alloc: Global, out: &mut String, words: &str) -> Result<(), AllocError> {
    let relations = relations(alloc, words)?;
    push_verdict(out, &decide(alloc, relations.as_slice()))
}

/// Pushes the verdict of so many upper bounds.
pub fn push_upper_bounds(alloc: Global, out: &mut String, words: &str) -> Result<(), AllocError> {
    let relations = upper_bounds(alloc, words.parse().unwrap_or(0))?;
    push_verdict(out, &decide(alloc, relations.as_slice()))
}

/// Pushes the verdict of so many bounds from above and so many from below, which make pairs.
pub fn push_pairs(alloc: Global, out: &mut String, words: &str) -> Result<(), AllocError> {
    let (uppers, lowers) = parted(words, " ");
    let (uppers, lowers) = (uppers.parse().unwrap_or(0), lowers.parse().unwrap_or(0));
    let relations = pairs(alloc, uppers, lowers)?;
    push_verdict(out, &decide(alloc, relations.as_slice()))
}

/// Pushes the verdict of relations with this one behind them.
fn push_last(
    alloc: Global,
    out: &mut String,
    solver: &mut Solver,
    last: &str,
) -> Result<(), AllocError> {
    let last = relation(alloc, last)?;
    push_verdict(out, &solver.decide_with(alloc, last))
}

/// The same of one that stays there where it stands behind `also `.
fn push_verdict_with(
    alloc: Global,
    out: &mut String,
    solver: &mut Solver,
    words: &str,
) -> Result<(), AllocError> {
    let (only, also) = parted(words, "also ");
    if also.is_empty() {
        return push_last(alloc, out, solver, only);
    }
    push_last(alloc, out, solver, also)?;
    solver.push(relation(alloc, also)?)
}

/// Pushes the verdicts of relations with each of these behind them, one after the other.
fn push_each(
    alloc: Global,
    out: &mut String,
    solver: &mut Solver,
    lasts: &str,
) -> Result<(), AllocError> {
    for last in lasts.split(" | ") {
        if !out.is_empty() {
            out.push_str(" | ")?;
        }
        push_verdict_with(alloc, out, solver, last)?;
    }
    Ok(())
}

/// Pushes the verdicts of the first relations with each of the others behind them.
pub fn push_decided_with(alloc: Global, out: &mut String, words: &str) -> Result<(), AllocError> {
    let (known, lasts) = parted(words, " | ");
    let mut solver = Solver::new(alloc, relations(alloc, known)?);
    push_each(alloc, out, &mut solver, lasts)
}
