//! The splits and instances of a sequent.
use acc_base::sequences::Seq;
use acc_cases_sequents::given::CaseGiven;
use acc_cases_sequents::written::{add_instances, add_splits, written};
use acc_inst::listing::{InstError, Listed};
use acc_inst::lists::lists;
use std::alloc::{AllocError, Global};
use std::fmt::Write;

/// The splits and instances, where there are a sequent and hints.
fn listed(alloc: Global, given: &CaseGiven) -> Option<Result<Listed, InstError>> {
    let (sequent, hints) = (given.sequent.as_ref()?, given.hints.as_ref()?);
    Some(lists(alloc, sequent, hints.as_slice()))
}

fn push_error(out: &mut String, error: InstError) -> Result<(), AllocError> {
    match error {
        InstError::Crowded => out.push_str("crowded"),
        InstError::Wide => out.push_str("wide"),
        InstError::Memory => Err(AllocError),
    }
}

fn push_nodes(alloc: Global, out: &mut String, listed: &Listed) -> Result<(), AllocError> {
    let mut nodes = Seq::new(alloc);
    add_splits(&mut nodes, listed.splits.as_slice())?;
    add_instances(alloc, &mut nodes, listed.insts.as_slice())?;
    out.push_str(&written(alloc, nodes)?)
}

/// Pushes the splits and instances.
pub fn push_lists(alloc: Global, out: &mut String, given: &CaseGiven) -> Result<(), AllocError> {
    match listed(alloc, given) {
        Some(Ok(listed)) => push_nodes(alloc, out, &listed),
        Some(Err(error)) => push_error(out, error),
        None => out.push_str("no sequent or no hints"),
    }
}

fn push_numbers(out: &mut String, listed: &Listed) -> Result<(), AllocError> {
    let (splits, insts) = (listed.splits.len(), listed.insts.len());
    write!(out, "{splits} splits, {insts} instances")
}

/// Pushes how many splits and instances there are.
pub fn push_counts(alloc: Global, out: &mut String, given: &CaseGiven) -> Result<(), AllocError> {
    match listed(alloc, given) {
        Some(Ok(listed)) => push_numbers(out, &listed),
        Some(Err(error)) => push_error(out, error),
        None => out.push_str("no sequent or no hints"),
    }
}
