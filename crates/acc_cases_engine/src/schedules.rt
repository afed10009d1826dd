//! Schedules over a journal.
ghost use Rattle.std.specs.Prelude.{◌<◌, ◌^◌, All, length};
ghost use Rattle.acc_engine.specs.Keeping.{CallsFit};
ghost use Rattle.acc_script.specs.BeginSizes.{begins_size};
ghost use Rattle.acc_script.specs.OrderLines.{IsPlace};

use crate::disks::{created, spelled};
use crate::lines::push_run;
use acc_base::machines::Call;
use acc_base::sequences::Seq;
use acc_cases_engine_runs::calls::asked;
use acc_cases_journals::recoveries::fresh;
use acc_cases_words::words::{number, parted};
use acc_disk::MemDisk;
use acc_lift::Accepted;
use acc_progress::Silent;
use acc_recover::recover;
use acc_running::schedule_journal;
use acc_script::{ScriptError, order};
use acc_store::MapStore;
use std::alloc::{AllocError, Global};
use std::fmt::Write;

/// Pushes a run of calls in an order over a disk's journal; hands the disk back.
fn push_over(
    alloc: Global,
    out: &mut String,
    design: &Accepted,
    disk: MemDisk,
    calls: Seq<Call>,
    places: &[u64],
) -> Result<MemDisk, AllocError>
    requires fits { CallsFit design.now calls }
    requires few { begins_size calls < 2 ^ 31 }
    requires places { All (IsPlace (length calls)) places.now }
{
    let run = schedule_journal(alloc, design, calls, places, disk, &mut Silent);
    push_run(out, &run)?;
    Ok(run.disk)
}

/// Pushes a run of calls over a disk's journal in the order that words spell; hands the disk back.
fn push_ordered(
    alloc: Global,
    out: &mut String,
    design: &Accepted,
    disk: MemDisk,
    calls: Seq<Call>,
    words: &str,
) -> Result<MemDisk, AllocError>
    requires fits { CallsFit design.now calls }
    requires few { begins_size calls < 2 ^ 31 }
{
    match order(alloc, calls.len() as u64, words.as_bytes()) {
        Ok(places) => push_over(alloc, out, design, disk, calls, places.as_slice()),
        Err(ScriptError::Memory) => Err(AllocError),
        Err(ScriptError::Line(_)) => {
            out.push_str("no order / ")?;
            Ok(disk)
        }
    }
}

/// Pushes a run of a script in an order over a disk's journal; hands the disk back.
fn push_front(
    alloc: Global,
    out: &mut String,
    design: &Accepted,
    disk: MemDisk,
    case: &str,
) -> Result<MemDisk, AllocError> {
    let (script, words) = parted(case, " -> ");
    match asked(alloc, design, script)? {
        Some(calls) => push_ordered(alloc, out, design, disk, calls, words),
        None => {
            out.push_str("no script / ")?;
            Ok(disk)
        }
    }
}

/// Pushes what recovery makes of a disk.
fn push_recovery(
    alloc: Global,
    out: &mut String,
    design: &Accepted,
    disk: MemDisk,
) -> Result<(), AllocError> {
    match recover(alloc, design, MapStore::new(alloc), disk, &mut Silent) {
        Ok(recovered) => {
            let events = recovered.state.events().len();
            write!(
                out,
                "recovers events {events} compensated {}",
                recovered.compensated
            )
        }
        Err(_) => out.push_str("not recovered"),
    }
}

/// A sound disk with what a run over this one leaves, which is pushed.
fn left(
    alloc: Global,
    out: &mut String,
    design: &Accepted,
    disk: MemDisk,
    case: &str,
) -> Result<MemDisk, AllocError> {
    let disk = push_front(alloc, out, design, disk, case)?;
    fresh(alloc, disk.bytes(), 0)
}

/// Pushes a run over a disk, and what recovery makes of what it left.
fn push_on(
    alloc: Global,
    out: &mut String,
    design: &Accepted,
    disk: MemDisk,
    case: &str,
) -> Result<(), AllocError> {
    let disk = left(alloc, out, design, disk, case)?;
    push_recovery(alloc, out, design, disk)
}

/// Pushes a run over a new journal, on a disk whose calls fail from that number on; and another over what it left, on a disk that is
/// sound.
fn push_two(
    alloc: Global,
    out: &mut String,
    design: &Accepted,
    from: Option<u64>,
    cases: &str,
) -> Result<(), AllocError> {
    let (first, second) = parted(cases, " | ");
    let disk = left(alloc, out, design, created(alloc, design, from)?, first)?;
    push_on(alloc, out, design, disk, second)
}

/// Pushes a run over a new journal, on a disk whose calls fail from that number on, and what recovery makes of what it left.
fn push_new(
    alloc: Global,
    out: &mut String,
    design: &Accepted,
    from: Option<u64>,
    case: &str,
) -> Result<(), AllocError> {
    push_on(alloc, out, design, created(alloc, design, from)?, case)
}

/// Pushes a run over a disk with the bytes that a word spells, and what recovery makes of what it left.
fn push_spelled(
    alloc: Global,
    out: &mut String,
    design: &Accepted,
    word: &str,
    case: &str,
) -> Result<(), AllocError> {
    push_on(alloc, out, design, spelled(alloc, design, word)?, case)
}

/// Pushes what a question about schedules answers whose first word spells where a disk begins to fail, or its bytes.
fn push_worded(
    alloc: Global,
    out: &mut String,
    design: &Accepted,
    verb: &str,
    rest: &str,
) -> Result<(), AllocError> {
    let (word, case) = parted(rest, " ");
    match verb {
        "schedule_fails" => push_new(alloc, out, design, Some(number(word)), case),
        "crash" => push_two(alloc, out, design, Some(number(word)), case),
        "over" => push_spelled(alloc, out, design, word, case),
        _ => out.push_str("no question"),
    }
}

/// Pushes what a question about schedules over a journal answers.
pub fn push_schedule(
    alloc: Global,
    out: &mut String,
    design: &Accepted,
    verb: &str,
    rest: &str,
) -> Result<(), AllocError> {
    match verb {
        "schedule" => push_new(alloc, out, design, None, rest),
        "again" => push_two(alloc, out, design, None, rest),
        _ => push_worded(alloc, out, design, verb, rest),
    }
}
