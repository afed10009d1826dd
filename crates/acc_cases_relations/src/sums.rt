//! Sums of forms, and weakest preconditions.
use crate::printed::{push_form, push_relation};
use crate::spelled::{actions, form, parted, relation};
use acc_base::forms::{Form, Rel};
use acc_base::sums::FormSum;
use acc_wp::{WpError, wp};
use std::alloc::{AllocError, Global};

/// A form and so many times another.
fn sum(alloc: Global, words: &str) -> Result<Result<Form, FormSum>, AllocError> {
    let (first, rest) = parted(words, " plus ");
    let (by, second) = parted(rest, " times ");
    let second = form(alloc, second)?;
    Ok(form(alloc, first)?.plus(alloc, &second, by.parse().unwrap_or(0)))
}

fn push_summed(out: &mut String, sum: &Result<Form, FormSum>) -> Result<(), AllocError> {
    match sum {
        Ok(form) => push_form(out, form),
        Err(FormSum::Wide) => out.push_str("wide"),
        Err(FormSum::Memory) => Err(AllocError),
    }
}

/// Pushes a form and so many times another.
pub fn push_sum(alloc: Global, out: &mut String, words: &str) -> Result<(), AllocError> {
    push_summed(out, &sum(alloc, words)?)
}

/// The weakest precondition of actions for a relation.
fn before(alloc: Global, words: &str) -> Result<Result<Rel, WpError>, AllocError> {
    let (after, before) = parted(words, " after ");
    let after = relation(alloc, after)?;
    let actions = actions(alloc, before)?;
    Ok(wp(alloc, actions.as_slice(), &after))
}

fn push_condition(out: &mut String, condition: &Result<Rel, WpError>) -> Result<(), AllocError> {
    match condition {
        Ok(relation) => push_relation(out, relation),
        Err(WpError::Wide) => out.push_str("wide"),
        Err(WpError::Memory) => Err(AllocError),
    }
}

/// Pushes the weakest precondition of actions for a relation.
pub fn push_before(alloc: Global, out: &mut String, words: &str) -> Result<(), AllocError> {
    push_condition(out, &before(alloc, words)?)
}
