//! Cases of sums, collected terms and weakest preconditions, of multipliers that refute relations, and of systems of relations that are
//! decided by elimination: what each question answers.
//!
//! The variables are v0, v1 and so on. A value is `2*v0+-1*v1+5`. A form is a list of terms and constants, as
//! `3*has[1*v0,7] -1*v1 4*one{1*v0+-1} 9`: what stands in braces has to be 0 for the term to count. Each row is one of the
//! first table, and each column the first. A relation is a form with `<= 0` or `= 0` behind it.
//!
//! `decide` answers the verdict of relations: a refutation is the places of relations with their multipliers, and a solution a fraction
//! for each unknown. `with` asks about a system with each of several relations behind it, with ` | ` between two; one behind `also` stays
//! there for those that come after it. `upper bounds` and `pairs` ask about systems of many relations, which are made.
#![tactic(auto)]

mod answers;
mod decided;
mod made;
mod parts;
mod printed;
mod refuted;
mod spelled;
mod sums;
mod verdicts;

use std::alloc::{AllocError, Global};

/// What the question of a line answers.
pub fn answer(alloc: Global, line: &str) -> Result<String, AllocError> {
    let mut out = String::new(alloc);
    answers::push_answer(alloc, &mut out, line)?;
    Ok(out)
}
