//! Cases of recovery, of the engine, and of schedules over a disk in memory, for designs that are accepted with a certificate: what each
//! line answers.
//!
//! A script has '/' for a line feed, and `N*CALL` for a line N times. A run makes a journal of the design's text on an empty disk and
//! recovers it; makes calls of an engine over it for the script's calls, item by item; tells how many events are durable and how many not,
//! and how many calls the disk has had; and recovers the disk again, as after a crash. Bytes are spelled by two digits each.
//!
//! - `run SCRIPT: ITEM; ITEM ..` tells what each item answers. `draw` and `begin PLACE` begin a place, `turn T` is a transaction's
//!   turn, `settle` makes the history durable, `ack T` tells a durable reply; `fill` draws while something begins, and `spend` turns
//!   each such to its end; `places`, `is_begun PLACE`, `settled`, `events`, `unfinished`, `reply T` and questions about rows tell what
//!   their names say.
//! - `recovery SCRIPT: ITEM; ITEM ..` tells the last recovery alone.
//! - `stops PICKS SCRIPT: ITEM; ITEM ..` tells for a stop behind each of the disk's calls, from before the first on, what recovery
//!   makes of so many images that a crash leaves there: how many events it finds, and how many it adds. Each such answer is told once.
//! - `faults SCRIPT: ITEM; ITEM ..` tells for each call of the disk the run in which it fails, and what recovery makes of the bytes.
//! - `recover BYTES` tells the recovery of these bytes; a `+` before them stands for the header of a journal of the design's text.
//! - `command NAME BYTES N` tells what `init`, `recover` or `dump` answers of a disk with these bytes, whose call number N fails, and none
//!   for 0: how it ended, its lines, how many events it tells and how many of them are durable, how many calls the disk has had, and what
//!   recovery makes of its bytes then.
//! - `schedule SCRIPT -> ORDER` makes a journal of the design's text on an empty disk, and lets the script's calls run over it in the
//!   order. It tells the lines that are said, how the run ended, how many events are durable, of how many, and how many calls the disk has
//!   had; and what recovery makes of its bytes. `schedule_fails N SCRIPT -> ORDER` does the same on a disk whose calls fail from number N
//!   on.
//! - `again SCRIPT -> ORDER | SCRIPT -> ORDER` lets the second run on a new disk with the bytes that the first left, and `crash N ..` does
//!   the same behind a first disk whose calls fail from number N on.
//! - `over BYTES SCRIPT -> ORDER` runs on a disk with these bytes; a `+` before them stands as in `recover`.
#![tactic(auto)]

mod disks;
mod faults;
mod lines;
mod schedules;
mod stops;

use acc_cases_engine_runs::runs::{self, Case};
use acc_cases_journals::{commands, files};
use acc_cases_words::words::{number, parted};
use acc_lift::Accepted;
use std::alloc::{AllocError, Global};

/// The case of a script and its items.
fn case<'a>(design: &'a Accepted, rest: &'a str) -> Case<'a> {
    let (script, items) = parted(rest, ": ");
    Case {
        design,
        script,
        items,
    }
}

/// Pushes what a line answers.
fn push_answer(
    alloc: Global,
    out: &mut String,
    design: &Accepted,
    line: &str,
) -> Result<(), AllocError> {
    let (verb, rest) = parted(line, " ");
    match verb {
        "run" => runs::push_run(alloc, out, &case(design, rest)),
        "recovery" => runs::push_recovery(alloc, out, &case(design, rest)),
        "stops" => {
            let (picks, rest) = parted(rest, " ");
            stops::push_stops(alloc, out, &case(design, rest), number(picks))
        }
        "faults" => faults::push_faults(alloc, out, &case(design, rest)),
        "recover" => files::push_file(alloc, out, design, rest),
        "command" => commands::push_command(alloc, out, design, rest),
        _ => schedules::push_schedule(alloc, out, design, verb, rest),
    }
}

/// What a line answers.
pub fn answer(alloc: Global, design: &Accepted, line: &str) -> Result<String, AllocError> {
    let mut out = String::new(alloc);
    push_answer(alloc, &mut out, design, line)?;
    Ok(out)
}
