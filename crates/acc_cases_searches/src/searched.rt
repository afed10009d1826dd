//! How the search for a proof of a sequent ends.
use crate::judged::push_judged;
use acc_axioms::nodes::Node;
use acc_base::forms::Rel;
use acc_base::sequences::{Seq, copied};
use acc_cases_sequents::given::CaseGiven;
use acc_cases_sequents::written::written;
use acc_prover::found::{Found, SearchError};
use acc_prover::searching::search;
use std::alloc::{AllocError, Global};
use std::fmt::Write;

/// What the search finds, where there are a design, a sequent and hints.
fn searched(alloc: Global, given: &CaseGiven) -> Option<Result<Found, SearchError>> {
    let (design, sequent) = (given.design.as_ref()?, given.sequent.as_ref()?);
    let hints = given.hints.as_ref()?;
    Some(search(alloc, design, sequent, hints.as_slice()))
}

fn push_error(out: &mut String, error: SearchError) -> Result<(), AllocError> {
    match error {
        SearchError::Crowded => out.push_str("crowded"),
        SearchError::Wide => out.push_str("wide"),
        SearchError::Many => out.push_str("many"),
        SearchError::Memory => Err(AllocError),
    }
}

fn push_point(out: &mut String, point: &[(i128, i128)]) -> Result<(), AllocError> {
    out.push_str("open at")?;
    for (numerator, denominator) in point {
        write!(out, " {numerator}/{denominator}")?;
    }
    out.push_str(":")
}

fn push_signs(out: &mut String, leaf: &[Rel]) -> Result<(), AllocError> {
    for relation in leaf {
        out.push_str(if relation.equal { " =" } else { " <=" })?;
    }
    out.push_str(" ")
}

fn push_forms(alloc: Global, out: &mut String, leaf: &[Rel]) -> Result<(), AllocError> {
    let mut nodes = Seq::new(alloc);
    for relation in leaf {
        nodes.push(Node::Split(copied(&relation.form)?))?;
    }
    out.push_str(&written(alloc, nodes)?)
}

fn push_open(
    alloc: Global,
    out: &mut String,
    leaf: &[Rel],
    point: &[(i128, i128)],
) -> Result<(), AllocError> {
    push_point(out, point)?;
    push_signs(out, leaf)?;
    push_forms(alloc, out, leaf)
}

fn push_found(
    alloc: Global,
    out: &mut String,
    given: &CaseGiven,
    found: &Found,
) -> Result<(), AllocError> {
    match found {
        Found::Proved(proof) => push_judged(alloc, out, given, Some(proof), "proved"),
        Found::Unproved(leaf, point) => push_open(alloc, out, leaf.as_slice(), point.as_slice()),
    }
}

/// Pushes whether the sequent is proved, or where it stays open.
pub fn push_end(alloc: Global, out: &mut String, given: &CaseGiven) -> Result<(), AllocError> {
    match searched(alloc, given) {
        Some(Ok(found)) => push_found(alloc, out, given, &found),
        Some(Err(error)) => push_error(out, error),
        None => out.push_str("no design, no sequent or no hints"),
    }
}

fn push_nodes(alloc: Global, out: &mut String, found: Found) -> Result<(), AllocError> {
    match found {
        Found::Proved(proof) => out.push_str(&written(alloc, proof.nodes)?),
        Found::Unproved(_, _) => out.push_str("open"),
    }
}

/// Pushes the proof that the search finds.
pub fn push_proof(alloc: Global, out: &mut String, given: &CaseGiven) -> Result<(), AllocError> {
    match searched(alloc, given) {
        Some(Ok(found)) => push_nodes(alloc, out, found),
        Some(Err(error)) => push_error(out, error),
        None => out.push_str("no design, no sequent or no hints"),
    }
}
