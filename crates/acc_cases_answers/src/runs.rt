//! Plays and schedules of texts.
use crate::answers::{answer_at_once, answer_last};
use acc_cases_commands::memory;
use std::io;

/// Plays a design, a script and an order.
pub fn play_texts<R: Print + AllocGlobal>(
    rt: &R,
    design: &str,
    script: &str,
    order: &str,
) -> io::Result<()> {
    let mut shelf = memory::shelf(rt.alloc(), design)?;
    memory::hold_run(&mut shelf, script, order)?;
    answer_at_once(rt, "play design script order", &mut shelf)
}

/// Schedules a script in an order over a design and a certificate.
pub fn sched_texts<R: Print + AllocGlobal>(
    rt: &R,
    design: &str,
    certificate: &str,
    rest: &str,
) -> io::Result<()> {
    let (script, order) = rest.split_once(" -> ").unwrap_or((rest, ""));
    let mut shelf = memory::certified_shelf(rt.alloc(), design, certificate)?;
    memory::hold_run(&mut shelf, script, order)?;
    answer_at_once(rt, memory::SCHED, &mut shelf)
}

/// Schedules a script without an order over a design and a certificate, and tells how that ends.
pub fn sched_last<R: Print + AllocGlobal>(
    rt: &R,
    design: &str,
    certificate: &str,
    script: &str,
) -> io::Result<()> {
    let mut shelf = memory::certified_shelf(rt.alloc(), design, certificate)?;
    memory::hold_run(&mut shelf, script, "")?;
    answer_last(rt, memory::SCHED, &mut shelf)
}
