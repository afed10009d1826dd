//! The calls of a journal by name.
ghost use Rattle.std.specs.Prelude.{◌<◌, ◌^◌, length};
ghost use Rattle.acc_wal.specs.Spellings.{Fits};

use crate::answers::push_end;
use crate::events::{event, push_events};
use crate::listing::{ListedEvents, events_in};
use crate::states::{push_seal, push_states};
use crate::stops::{push_changes, push_stops};
use crate::words::{bytes, push_bytes};
use acc_base::machines::Event;
use acc_cases_disk::words::{number, numbers, split};
use acc_disk::{Disk, MemDisk};
use acc_wal::{Wal, WalError, event_len};
use std::alloc::{AllocError, Global};
use std::fmt::Write;
use std::mem;

/// The most bytes that a tail is spelled in here.
const MOST: usize = 1 << 31;

/// A disk, or the journal on it. While a call has the disk nothing is held.
#[derive(Drop)]
pub enum Held {
    Nothing,
    Disk(MemDisk),
    Journal(Wal<MemDisk>),
}

impl Held {
    /// The disk, also of a journal.
    fn disk(&self) -> Option<&MemDisk> {
        match self {
            Held::Nothing => None,
            Held::Disk(disk) => Some(disk),
            Held::Journal(wal) => Some(wal.disk()),
        }
    }

    /// Takes the disk out, also of a journal.
    fn take(&mut self) -> Option<MemDisk> {
        match mem::replace(self, Held::Nothing) {
            Held::Nothing => None,
            Held::Disk(disk) => Some(disk),
            Held::Journal(wal) => Some(wal.give_back()),
        }
    }

    /// Holds the journal that was made or attached, or the disk that was handed back.
    fn hold(&mut self, opened: Result<Wal<MemDisk>, (WalError, MemDisk)>) -> Result<(), WalError> {
        match opened {
            Ok(wal) => {
                *self = Held::Journal(wal);
                Ok(())
            }
            Err((error, disk)) => {
                *self = Held::Disk(disk);
                Err(error)
            }
        }
    }
}

/// A disk with those bytes; the calls of the list fail, and all from the number `from` on.
fn fresh(alloc: Global, held: &str, fails: &str, from: &str) -> Result<MemDisk, AllocError> {
    let held = bytes(alloc, held)?;
    let fails = numbers(alloc, fails)?;
    MemDisk::new(alloc, &held, fails.as_slice(), from.parse().ok()).map_err(|_| AllocError)
}

/// Holds such a disk, spelled by three words.
fn renew(alloc: Global, out: &mut String, held: &mut Held, words: &str) -> Result<(), AllocError> {
    let (bytes, rest) = split(words);
    let (fails, from) = split(rest);
    *held = Held::Disk(fresh(alloc, bytes, fails, from)?);
    out.push_str("fresh")
}

/// The base text of a word, and none for '-'.
fn base(word: &str) -> &[u8]
    ensures { length result.now < 2 ^ 32 }
{
    let base = word.as_bytes();
    if word == "-" || base.len() > MOST {
        &[]
    } else {
        base
    }
}

/// Makes a journal on the disk.
fn create(alloc: Global, held: &mut Held, text: &str) -> Result<(), WalError> {
    match held.take() {
        Some(disk) => held.hold(Wal::create(alloc, disk, base(text))),
        None => Err(WalError::Disk),
    }
}

/// Makes a journal with these events on the disk, and behind them a state of this text, if there is one.
fn make(
    alloc: Global,
    held: &mut Held,
    text: &str,
    listed: &ListedEvents,
    seal: Option<&[u8]>,
) -> Result<(), WalError> {
    let events = listed.events();
    if (events.is_empty() && seal.is_none()) || seal.is_some_and(|text| text.len() > MOST) {
        return Err(WalError::Memory);
    }
    match held.take() {
        Some(disk) => held.hold(Wal::create_with(alloc, disk, base(text), events, seal)),
        None => Err(WalError::Disk),
    }
}

/// Pushes how the making of a journal ends, by the words for its base text, its state and its events.
fn push_made(
    alloc: Global,
    out: &mut String,
    held: &mut Held,
    words: &str,
) -> Result<(), AllocError> {
    let (text, rest) = split(words);
    let (state, rest) = split(rest);
    let listed = events_in(alloc, rest)?;
    let seal = bytes(alloc, state)?;
    let seal = if state == "none" {
        None
    } else {
        Some(seal.as_slice())
    };
    push_end(out, make(alloc, held, text, &listed, seal))
}

/// Attaches the journal on the disk.
fn attach(alloc: Global, held: &mut Held) -> Result<(), WalError> {
    match held.take() {
        Some(disk) => held.hold(Wal::attach(alloc, disk)),
        None => Err(WalError::Disk),
    }
}

/// Lets the journal go, and holds its disk.
fn close(out: &mut String, held: &mut Held) -> Result<(), AllocError> {
    if let Some(disk) = held.take() {
        *held = Held::Disk(disk);
    }
    out.push_str("closed")
}

/// Pushes an event to the tail.
fn push<D: Disk>(wal: &mut Wal<D>, event: Event) -> Result<(), WalError>
    requires { Fits event }
{
    if wal.tail_bytes().saturating_add(event_len(&event)) >= MOST {
        return Err(WalError::Memory);
    }
    match wal.push(event) {
        Ok(()) => Ok(()),
        Err((error, _)) => Err(error),
    }
}

/// Settles so many batches of so many steps each.
pub fn fill<D: Disk>(wal: &mut Wal<D>, batches: u64, steps: u32) -> Result<(), WalError> {
    for _ in 0..batches {
        batch(wal, steps)?;
    }
    Ok(())
}

/// Settles a batch of so many steps.
#[tactic(auto, unfolding(acc_wal::specs::Spellings::Fits))]
fn batch<D: Disk>(wal: &mut Wal<D>, steps: u32) -> Result<(), WalError> {
    for t in 0..steps {
        push(wal, Event::Step(t as u64))?;
    }
    wal.settle()
}

/// Pushes how an event of those words is pushed to the tail.
fn push_pushed(
    alloc: Global,
    out: &mut String,
    wal: &mut Wal<MemDisk>,
    words: &str,
) -> Result<(), AllocError> {
    let words: Vec<&str> = words.split(' ').collect(alloc)?;
    match event(alloc, words.as_slice())? {
        Some(event) => push_end(out, push(wal, event)),
        None => out.push_str("no event"),
    }
}

/// Pushes the base text, the durable events and the tail.
fn push_lists(out: &mut String, wal: &Wal<MemDisk>) -> Result<(), AllocError> {
    push_bytes(out, wal.base())?;
    out.push_str(" ")?;
    push_events(out, wal.durable())?;
    out.push_str(" ")?;
    push_events(out, wal.tail())
}

/// Settles so many batches of so many steps, by two words.
fn fill_by(wal: &mut Wal<MemDisk>, words: &str) -> Result<(), WalError> {
    let (batches, steps) = split(words);
    fill(wal, number(batches), steps.parse().unwrap_or(0))
}

/// Pushes what a call of a journal answers.
fn push_call(
    alloc: Global,
    out: &mut String,
    wal: &mut Wal<MemDisk>,
    words: &str,
) -> Result<(), AllocError> {
    let (name, rest) = split(words);
    match name {
        "push" => push_pushed(alloc, out, wal, rest),
        "lists" => push_lists(out, wal),
        "tail" => write!(out, "{} bytes", wal.tail_bytes()),
        "states" => push_states(out, wal),
        "seal" => push_end(out, push_seal(wal, &bytes(alloc, rest)?)),
        "reserve" => push_end(out, wal.reserve(number(rest) as usize)),
        "settle" => push_end(out, wal.settle()),
        "fill" => push_end(out, fill_by(wal, rest)),
        _ => out.push_str("no call"),
    }
}

/// Pushes what is asked of a disk.
fn push_seen(
    alloc: Global,
    out: &mut String,
    disk: &MemDisk,
    name: &str,
    picks: u64,
) -> Result<(), AllocError> {
    match name {
        "bytes" => push_bytes(out, disk.bytes()),
        "calls" => write!(out, "{}", disk.calls()),
        "stops" => push_stops(alloc, out, disk, picks),
        _ => push_changes(alloc, out, disk, picks),
    }
}

/// Pushes what is asked of the disk that is held, also of a journal.
fn push_held(alloc: Global, out: &mut String, held: &Held, words: &str) -> Result<(), AllocError> {
    let (name, picks) = split(words);
    match held.disk() {
        Some(disk) => push_seen(alloc, out, disk, name, number(picks)),
        None => out.push_str("no journal"),
    }
}

/// Pushes what a call of the journal answers that is held.
fn push_called(
    alloc: Global,
    out: &mut String,
    held: &mut Held,
    words: &str,
) -> Result<(), AllocError> {
    match held {
        Held::Journal(wal) => push_call(alloc, out, wal, words),
        Held::Disk(_) | Held::Nothing => out.push_str("no journal"),
    }
}

/// Pushes what the call of those words answers.
pub fn play(
    alloc: Global,
    out: &mut String,
    held: &mut Held,
    words: &str,
) -> Result<(), AllocError> {
    let (name, rest) = split(words);
    match name {
        "disk" => renew(alloc, out, held, rest),
        "create" => push_end(out, create(alloc, held, rest)),
        "make" => push_made(alloc, out, held, rest),
        "attach" => push_end(out, attach(alloc, held)),
        "close" => close(out, held),
        "bytes" | "calls" | "stops" | "changes" => push_held(alloc, out, held, words),
        _ => push_called(alloc, out, held, words),
    }
}
