//! Runs in which a call of the disk fails.
use acc_cases_engine_runs::runs::{Case, push_whole};
use acc_cases_journals::recoveries::push_counts;
use std::alloc::{AllocError, Global};
use std::fmt::Write;

/// Pushes the run in which that call fails, and what recovery makes of the bytes then.
fn push_fault(alloc: Global, out: &mut String, case: &Case, call: u64) -> Result<(), AllocError> {
    write!(out, "\n  {call}: ")?;
    let disk = push_whole(alloc, out, case, call)?;
    out.push_str(" | ")?;
    push_counts(alloc, out, case.design, disk.bytes())
}

/// Pushes the runs in which each of the calls fails that the disk has in a whole one.
pub fn push_faults(alloc: Global, out: &mut String, case: &Case) -> Result<(), AllocError> {
    let mut run = String::new(alloc);
    let disk = push_whole(alloc, &mut run, case, 0)?;
    for call in 1..disk.calls().saturating_add(1) {
        push_fault(alloc, out, case, call)?;
    }
    Ok(())
}
