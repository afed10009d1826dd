//! The states of a journal, items of bodies, and what bytes count.
use crate::answers::push_refusal;
use crate::events::push_events;
use crate::words::{bytes, push_bytes};
use acc_base::machines::Event;
use acc_cases_disk::words::{number, split};
use acc_disk::{Disk, MemDisk};
use acc_wal::{Item, Journal, Seal, Wal, WalError, counted, spelled};
use std::alloc::{AllocError, Global};
use std::fmt::Write;

/// The most bytes of a text that is pushed here.
const MOST: usize = 1 << 20;

/// Pushes the states between brackets, each with its place before its text, with commas.
fn push_seals(out: &mut String, seals: &[Seal]) -> Result<(), AllocError> {
    let mut mark = "[";
    for seal in seals {
        write!(out, "{mark}{}:", seal.place)?;
        push_bytes(out, seal.text.as_slice())?;
        mark = ",";
    }
    out.push_str(if seals.is_empty() { "[]" } else { "]" })
}

/// Pushes the version, the durable states, and those that wait.
pub fn push_states(out: &mut String, wal: &Wal<MemDisk>) -> Result<(), AllocError> {
    write!(out, "{} ", wal.version())?;
    push_seals(out, wal.seals())?;
    out.push_str(" ")?;
    push_seals(out, wal.waiting())
}

/// Puts a state of this text behind the tail, unless the journal's version has none or it is too long.
pub fn push_seal<D: Disk>(wal: &mut Wal<D>, text: &[u8]) -> Result<(), WalError> {
    if wal.version() != 2 {
        return Err(WalError::OtherVersion(wal.version()));
    }
    if text.len() > MOST || wal.tail_bytes() > MOST {
        return Err(WalError::Memory);
    }
    wal.push_seal(text)
}

/// Pushes what bytes count: version, base text, events and states.
fn push_journal(out: &mut String, journal: &Journal) -> Result<(), AllocError> {
    write!(out, "{} ", journal.version)?;
    push_bytes(out, journal.base.as_slice())?;
    out.push_str(" ")?;
    push_events(out, journal.events.as_slice())?;
    out.push_str(" ")?;
    push_seals(out, journal.seals.as_slice())
}

/// Pushes what the bytes of a word count, or why they don't.
pub fn push_counted(alloc: Global, out: &mut String, word: &str) -> Result<(), AllocError> {
    match counted(alloc, &bytes(alloc, word)?) {
        Ok(journal) => push_journal(out, &journal),
        Err(error) => push_refusal(out, error),
    }
}

/// Pushes an item.
fn push_item(alloc: Global, out: &mut String, item: Item) -> Result<(), AllocError> {
    match item {
        Item::Event(event) => {
            let mut events: Vec<Event> = Vec::new(alloc);
            events.push(event)?;
            push_events(out, &events)
        }
        Item::State(text) => push_bytes(out, text.as_slice()),
    }
}

/// Pushes the item of a version that stands at a place of a body, and the place behind it, by three words.
pub fn push_spelled(alloc: Global, out: &mut String, words: &str) -> Result<(), AllocError> {
    let (version, rest) = split(words);
    let (place, body) = split(rest);
    let body = bytes(alloc, body)?;
    match spelled(
        alloc,
        &body,
        number(place) as usize,
        version.parse().unwrap_or(0),
    ) {
        Ok(Some((item, next))) => {
            push_item(alloc, out, item)?;
            write!(out, " {next}")
        }
        Ok(None) => out.push_str("no item"),
        Err(error) => push_refusal(out, error),
    }
}
