//! Cases of single calls of the machine with locks, of schedules, and of entries, over designs that are accepted with a certificate: what
//! each question answers.
//!
//! A number stands for a type, a point or a table, from 0 on, or for a transaction; a list has commas, and '-' is none.
//!
//! - `state ITEM; ITEM ..` makes calls of a fresh state, and asks about it. `begin CALL` gives the new number, `full` or `crowd`, for a
//!   call as scripts spell it; `turn T` and `crash T` what they answer, or that there is no such transaction; `take EVENT` whether the
//!   event is taken; `stuck`, `events`, `unfinished`, `is_unfinished T`, `reply T`, `dump` and questions about rows their answers.
//!   `fill N CALL` begins a call N times; `spend N CALL` begins it and turns it to its end, until there are at least N events.
//! - `replay EVENT; EVENT ..` does events again: how many there are then, and the rows; or which of them, from 0, isn't lawful.
//! - `schedule SCRIPT -> ORDER` lets the script's calls run in the order, and tells the schedule's lines, or what isn't as it should be. In
//!   a script ';' is a line feed.
//! - `bench LOAD -> MIX -> ORDER` runs the load's calls one after the other, and behind them the mix's in the order, and tells the lines of
//!   both, or what isn't as it should be. In both ';' is a line feed.
//! - `compatible TYPE POINT LOCALS TYPE POINT LOCALS` tells by which entry two places aren't compatible.
//! - `forbids TYPE POINT LOCALS SIDE TYPE POINT LOCALS` tells by which entry the first place forbids a step at the second.
//! - `locks CALL; CALL ..` makes calls of an index in which no transaction is. `enter T TYPE POINT LOCALS`, `prepare ..` and `leave T`
//!   tell that they are done, or why they can't be asked for; `change ..` prepares and changes. `first T TYPE POINT LOCALS TO` tells who
//!   bars the step of transaction T there that leads to point TO of its type, and `first T TYPE POINT LOCALS` the step that leads to an
//!   end.
#![tactic(auto)]

mod benches;
mod entries;
mod locks;
mod replays;
mod schedules;

use acc_cases_lock_states::states::push_answers;
use acc_cases_words::words::parted;
use acc_lift::Accepted;
use std::alloc::{AllocError, Global};

/// Pushes what a question answers.
fn push_answer(
    alloc: Global,
    out: &mut String,
    design: &Accepted,
    question: &str,
) -> Result<(), AllocError> {
    let (verb, rest) = parted(question, " ");
    match verb {
        "state" => push_answers(alloc, out, design, rest),
        "replay" => replays::push_replayed(alloc, out, design, rest),
        "schedule" => schedules::push_schedule(alloc, out, design, rest),
        "bench" => benches::push_bench(alloc, out, design, rest),
        "compatible" => entries::push_clash(alloc, out, design, rest),
        "locks" => locks::push_locks(alloc, out, design, rest),
        "forbids" => entries::push_forbidding(alloc, out, design, rest),
        _ => out.push_str("no question"),
    }
}

/// What a question answers.
pub fn answer(alloc: Global, design: &Accepted, question: &str) -> Result<String, AllocError> {
    let mut out = String::new(alloc);
    push_answer(alloc, &mut out, design, question)?;
    Ok(out)
}
