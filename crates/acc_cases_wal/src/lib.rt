//! Cases of calls on a journal over a disk in memory: what each answers.
//!
//! `disk BYTES FAILS FROM` gives the disk of the lines behind it. Bytes are spelled by two digits each, and '-' is none.
//! `file PATH BATCHES STEPS` and `open PATH` make and attach a journal on a real file; a benchmark asks them too. `rows BYTES` tells the
//! rows whose text the bytes are, and then the length of their text, and the text. `counted BYTES` tells what a file of these bytes
//! counts, and `spelled VERSION PLACE BODY` the item that stands at a place of a batch's body, and the place behind it.
#![tactic(auto)]

mod answers;
mod checkpoints;
mod events;
mod files;
mod journals;
mod listing;
mod states;
mod stops;
mod words;

use crate::checkpoints::push_state;
use crate::files::{push_count, push_filled};
use crate::states::{push_counted, push_spelled};
use acc_cases_disk::words::split;
pub use journals::Held;
use std::alloc::AllocError;
use std::fs::File;
use std::rt::Files;

/// Pushes what the call of a line answers.
fn push_answer<R: Files<File = File> + AllocGlobal>(
    rt: &R,
    out: &mut String,
    held: &mut Held,
    line: &str,
) -> Result<(), AllocError> {
    let (name, rest) = split(line);
    match name {
        "file" => push_filled(rt, rt.alloc(), out, rest),
        "open" => push_count(rt, rt.alloc(), out, rest),
        "rows" => push_state(rt.alloc(), out, rest),
        "counted" => push_counted(rt.alloc(), out, rest),
        "spelled" => push_spelled(rt.alloc(), out, rest),
        _ => journals::play(rt.alloc(), out, held, line),
    }
}

/// What the call of a line answers.
pub fn answer<R: Files<File = File> + AllocGlobal>(
    rt: &R,
    held: &mut Held,
    line: &str,
) -> Result<String, AllocError> {
    let mut out = String::new(rt.alloc());
    push_answer(rt, &mut out, held, line)?;
    Ok(out)
}
