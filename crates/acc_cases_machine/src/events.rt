//! Events, and questions between them.
ghost use Rattle.std.specs.Prelude.{◌≡◌, [], IfOk};

use crate::designs::is_formed;
use acc_base::designs::Design;
use acc_base::machines::Event;
use acc_cases_words::events::{event, push_reply, push_unfinished};
use acc_cases_words::rows::push_row_answer;
use acc_cases_words::words::number;
use acc_index_store::IndexStore;
use acc_plain::{Machine, PlainError};
use acc_store::{MapStore, Store, StoreError};
use std::alloc::{AllocError, Global};
use std::fmt::Write;

/// The most events of a run.
const MOST: usize = 1 << 30;

/// Whether the machine takes an event.
fn takes<S: Store>(machine: &mut Machine<S>, event: &Event) -> Result<bool, AllocError> {
    if machine.events().len() >= MOST {
        return Ok(false);
    }
    match machine.take(event) {
        Ok(is_taken) => Ok(is_taken),
        Err(PlainError::Memory) => Err(AllocError),
    }
}

/// Pushes whether an event is taken, and how many there are then.
fn push_taken<S: Store>(
    out: &mut String,
    machine: &mut Machine<S>,
    event: &Event,
) -> Result<(), AllocError> {
    let is_taken = takes(machine, event)?;
    let count = machine.events().len();
    let word = if is_taken { "taken" } else { "refused" };
    write!(out, "{word} {count}")
}

fn push_answer<S: Store>(
    alloc: Global,
    out: &mut String,
    machine: &Machine<S>,
    words: &[&str],
) -> Result<(), AllocError> {
    match words {
        ["unfinished"] => push_unfinished(out, machine.unfinished()),
        ["reply", t] => push_reply(out, machine.reply(number(t))),
        _ => push_row_answer(alloc, out, machine.store(), words),
    }
}

/// Pushes what comes of an event or of a question.
fn push_item<S: Store>(
    alloc: Global,
    out: &mut String,
    machine: &mut Machine<S>,
    item: &str,
) -> Result<(), AllocError> {
    let words: Vec<&str> = item.split(' ').collect(alloc)?;
    match event(alloc, words.as_slice())? {
        Some(event) => push_taken(out, machine, &event),
        None => push_answer(alloc, out, machine, words.as_slice()),
    }
}

fn push_items<S: Store>(
    alloc: Global,
    out: &mut String,
    machine: &mut Machine<S>,
    items: &str,
) -> Result<(), AllocError> {
    let mut first = true;
    for item in items.split("; ") {
        if !first {
            out.push_str("; ")?;
        }
        first = false;
        push_item(alloc, out, machine, item)?;
    }
    Ok(())
}

/// Pushes what comes of events and questions on a fresh machine.
pub fn push_answers(
    alloc: Global,
    out: &mut String,
    design: &Design,
    items: &str,
) -> Result<(), AllocError> {
    if !is_formed(design) {
        return out.push_str("no design");
    }
    let mut machine = Machine::new(alloc, design, MapStore::new(alloc));
    push_items(alloc, out, &mut machine, items)
}

/// A store that keeps the totals that a design's steps read.
fn indexed(alloc: Global, design: &Design) -> Result<IndexStore, AllocError>
    ensures { IfOk result (λ store. store ≡ []) }
{
    match IndexStore::of(alloc, design) {
        Ok(store) => Ok(store),
        Err(StoreError::Memory) => Err(AllocError),
    }
}

/// Pushes what comes of events and questions on a fresh machine whose store keeps totals.
pub fn push_indexed(
    alloc: Global,
    out: &mut String,
    design: &Design,
    items: &str,
) -> Result<(), AllocError> {
    if !is_formed(design) {
        return out.push_str("no design");
    }
    let mut machine = Machine::new(alloc, design, indexed(alloc, design)?);
    push_items(alloc, out, &mut machine, items)
}
