// The stream itself.
ghost use Rattle.std.specs.Prelude.{◌≡◌, ◌++◌, ◌+◌, ◌^◌, ◌<◌, ◌≤◌, [], ℕ, List, length, take, drop, slice_get, OnOk, OnErr, IsSome, option_copied};
ghost use Rattle.acc_wal.specs.Items.{events_of};
ghost use Rattle.acc_wal.specs.declared.items.Item.{Item as TheItem};
ghost use Rattle.acc_stream.specs.Streams.{HasBatches};
ghost use Rattle.acc_stream.specs.Following.{Follows, Awaits, AddsItems};

use crate::batches::batches_of;
use crate::faults::{Fault, StreamError};
use crate::heads::{Head, head_of};
use crate::queues::Queue;
use acc_wal::Item;
use std::alloc::{AllocError, Global};
use std::marker::Model;

/// A stream of the bytes of a journal with a base text, as far as they were fed, of whatever pieces. Contracts speak of all the bytes that
/// were fed and of the items that were taken; it keeps the bytes behind the last whole batch, and the items that wait to be taken.
///
/// A batch is whole once its gate is open, all its bytes came, and one byte behind them. The items that wait are those of the whole
/// batches, up to the first that isn't spelled, without those that were taken.
#[derive(Drop)]
pub struct Stream {
    alloc: Global,
    base: Vec<u8>,
    version: u32,
    place: u64,
    kept: Vec<u8>,
    items: Queue,
    ended: Option<Fault>,
}

impl Model for Stream {
    ghost use Rattle.std.specs.Prelude.{◌<◌, ◌+◌, ◌^◌, length};
    ghost use Rattle.acc_stream.specs.Following.{Streamed};

    ghost Value = { Streamed };

    ghost view = { λ s. record { base = s.base.items; version = s.version; place = s.place; kept = s.kept.items; waiting = s.items; ended = s.ended } };

    ghost invariant = { λ s. s.place + length s.kept.items < 2 ^ 64 };
}

// Lets the first bytes go.
fn drop_front(bytes: &mut Vec<u8>, count: usize)
    requires { count ≤ length bytes.old.items }
    ensures { bytes.new.items ≡ drop count bytes.old.items }
{
    if count > 0 {
        let rest = bytes.len() - count;
        bytes.rotate_left(count);
        bytes.truncate(rest);
    }
}

impl Stream {
    /// A stream of which nothing was fed yet, of a journal that is to have that base text. It takes no memory.
    pub fn new(alloc: Global, base: Vec<u8>) -> Self
        ensures base { result.base ≡ base.items }
        ensures follows { Follows [] [] result }
    {
        Stream {
            alloc,
            base,
            version: 0,
            place: 0,
            kept: Vec::new(alloc),
            items: Queue::new(alloc),
            ended: None,
        }
    }

    /// The item that comes next, if one waits.
    pub fn item(&self) -> Option<&Item>
        ensures { option_copied result ≡ slice_get self.now.waiting 0 }
    {
        self.items.front()
    }

    /// How many of the items that wait are events.
    pub fn events(&self) -> usize
        ensures events { result ≡ length (events_of self.now.waiting) }
        ensures few { result < 2 ^ 63 }
    {
        self.items.events()
    }

    /// The fault behind the items, if one has come. It stays.
    pub fn ended(&self) -> Option<Fault>
        ensures { result ≡ self.now.ended }
    {
        self.ended
    }

    /// Takes the item that comes next, if one waits.
    pub fn skip(&mut self)
        ensures skipped { self.new ≡ record self.old { waiting = drop 1 self.old.waiting } }
        ensures follows { (fed : List ℕ) (taken : List TheItem) → Follows fed taken self.old
            → Follows fed (taken ++ take 1 self.old.waiting) self.new }
    {
        self.items.skip();
    }
}

impl Stream {
    /// Feeds the next piece of the stream. It takes time and memory with the length of the piece and of the batches that came whole by it.
    pub fn feed(&mut self, piece: &[u8]) -> Result<(), StreamError>
        ensures ok { (fed : List ℕ) (taken : List TheItem) → Follows fed taken self.old
            → OnOk result (Follows (fed ++ piece.now) taken self.new) }
        ensures adds { OnOk result (AddsItems self.old self.new) }
        ensures ended { IsSome self.old.ended → self.new ≡ self.old }
        ensures err { OnErr result (self.new ≡ self.old) }
        ensures base { self.new.base ≡ self.old.base }
    {
        if self.ended.is_some() {
            return Ok(());
        }
        let before = self.kept.len();
        if self
            .place
            .checked_add((before + piece.len()) as u64)
            .is_none()
        {
            return Err(StreamError::Memory);
        }
        self.kept.extend_from_slice(piece)?;
        match self.read_on() {
            Ok(()) => Ok(()),
            Err(_) => {
                self.kept.truncate(before);
                Err(StreamError::Memory)
            }
        }
    }

    // Reads what came whole.
    fn read_on(&mut self) -> Result<(), AllocError>
        ensures ok { (fed : List ℕ) (taken : List TheItem) → Awaits fed taken self.old → OnOk result (Follows fed taken self.new) }
        ensures adds { OnOk result (AddsItems self.old self.new) }
        ensures err { OnErr result (self.new ≡ self.old) }
        ensures base { self.new.base ≡ self.old.base }
    {
        if self.version != 0 {
            return self.read_batches(self.version, 0);
        }
        match head_of(&self.base, &self.kept) {
            Head::Cut => Ok(()),
            Head::Whole(version, at) => self.read_batches(version, at),
            Head::Ended(fault) => {
                self.ended = Some(fault);
                Ok(())
            }
        }
    }

    // Reads the whole batches behind so many of the bytes.
    fn read_batches(&mut self, version: u32, at: usize) -> Result<(), AllocError>
        requires { at ≤ length self.old.kept }
        ensures ok { (fed : List ℕ) (taken : List TheItem)
            → HasBatches self.old.base fed version (taken ++ self.old.waiting) (self.old.place + at) (drop at self.old.kept)
            → OnOk result (Follows fed taken self.new) }
        ensures adds { OnOk result (AddsItems self.old self.new) }
        ensures err { OnErr result (self.new ≡ self.old) }
        ensures base { self.new.base ≡ self.old.base }
    {
        let found = batches_of(
            self.alloc,
            &self.kept[at..],
            version,
            self.place + at as u64,
        )?;
        self.items.append(found.items)?;
        let count = at + found.long;
        drop_front(&mut self.kept, count);
        self.place += count as u64;
        self.version = version;
        self.ended = found.ended;
        Ok(())
    }
}
