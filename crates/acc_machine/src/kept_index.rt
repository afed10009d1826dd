//! The index of unfinished transactions that a state keeps where it pays.
ghost use Rattle.std.specs.Prelude.{◌≡◌, ◌*◌, ◌≤◌, ◌/◌, min, ◌^◌, ◌-◌, List, length, IfOk, OnOk, IsSome, None, option_copied};
ghost use Rattle.acc_base.specs.declared.designs.Design.{Design as Looked};
ghost use Rattle.acc_base.specs.declared.machines.Frame.{Frame as Shown};
ghost use Rattle.acc_formed.specs.WellFormed.{IsWellFormed};
ghost use Rattle.acc_table.specs.Entries.{IsPointOf};
ghost use Rattle.acc_lock_index.specs.Indexed.{StandsFor, IsPut, IsWithout};
ghost use Rattle.acc_machine.specs.IndexedStates.{IsIndexOf};
ghost use Rattle.acc_machine.specs.Agreeing.{AreApart, AgreeBut, TellsFrame};
ghost use Rattle.acc_machine.specs.Blocked.{AreAtPoints};

use acc_base::designs::Design;
use acc_base::machines::Frame;
use acc_lock_index::{LockError, LockIndex};
use std::alloc::Global;

// How many tests, one for each entry and unfinished transaction, a walk takes at most where no index is made. Where it would take fewer
// than half of that, the index is let go.
const MOST_WALKED: usize = 1_024;

/// The frame with a number.
pub fn frame_of(frames: &[Frame], t: u64) -> Option<&Frame>
    ensures { TellsFrame frames.now t (option_copied result) }
{
    for i in 0..frames.len() {
        let f = &frames[i];
        if f.t == t {
            return Some(f);
        }
    }
    None
}

/// Puts a frame into an index, in place of the one with its number if that is there.
fn put(index: &mut LockIndex, d: &Design, f: &Frame) -> Result<(), LockError>
    requires formed { IsWellFormed d.now }
    requires point { IsPointOf d.now f.now.ty f.now.point }
    ensures { OnOk result ((old frames : List Shown) → StandsFor d.now old index.old.standings → IsPut f.now old frames
        → StandsFor d.now frames index.new.standings) }
{
    let at = f.at();
    if !index.has(f.t) {
        return index.enter(d, f.t, at, f.locals.as_slice());
    }
    index.prepare(d, f.t, at, f.locals.as_slice())?;
    index.change();
    Ok(())
}

/// Takes the frame with a number out of an index, if it is there.
fn take_out(index: &mut LockIndex, t: u64)
    ensures { (d : Looked) (old frames : List Shown) → StandsFor d old index.old.standings → IsWithout t old frames
        → StandsFor d frames index.new.standings }
{
    if index.has(t) {
        index.leave(t);
    }
}

/// An index that stands for these frames.
fn index_of(alloc: Global, d: &Design, frames: &[Frame]) -> Result<LockIndex, LockError>
    requires formed { IsWellFormed d.now }
    requires points { AreAtPoints d.now frames.now }
    requires apart { AreApart frames.now }
    ensures { IfOk result (λ x. StandsFor d.now frames.now x.standings) }
{
    let mut index = LockIndex::new(alloc);
    for i in 0..frames.len() {
        put(&mut index, d, &frames[i])?;
    }
    Ok(index)
}

/// Brings an index to stand for these frames, where it stood for others that are the same but for transaction t's.
fn follow(index: &mut LockIndex, d: &Design, frames: &[Frame], t: u64) -> Result<(), LockError>
    requires formed { IsWellFormed d.now }
    requires points { AreAtPoints d.now frames.now }
    requires apart { AreApart frames.now }
    ensures { OnOk result ((old : List Shown) → StandsFor d.now old index.old.standings → AgreeBut t old frames.now
        → StandsFor d.now frames.now index.new.standings) }
{
    match frame_of(frames, t) {
        Some(f) => put(index, d, f),
        None => {
            take_out(index, t);
            Ok(())
        }
    }
}

/// How many tests a walk over these frames takes for each of the design's entries.
fn walked(d: &Design, frames: &[Frame]) -> usize
    ensures { result ≡ min (length d.now.entries * length frames.now) (2 ^ 64 - 1) }
{
    d.entries.len().saturating_mul(frames.len())
}

/// The index that is kept for these frames behind one that stood for others, the same but for transaction t's, or behind none.
fn next_index(
    alloc: Global,
    index: Option<LockIndex>,
    d: &Design,
    frames: &[Frame],
    t: u64,
) -> Option<LockIndex>
    requires formed { IsWellFormed d.now }
    requires points { AreAtPoints d.now frames.now }
    requires apart { AreApart frames.now }
    ensures stands { (old : List Shown) → IsIndexOf d.now old index → AgreeBut t old frames.now → IsIndexOf d.now frames.now result }
    ensures pays { IsSome result → MOST_WALKED / 2 ≤ length d.now.entries * length frames.now }
{
    if walked(d, frames) < MOST_WALKED / 2 {
        return None;
    }
    match index {
        Some(mut index) => match follow(&mut index, d, frames, t) {
            Ok(()) => Some(index),
            Err(LockError::Memory) => None,
        },
        None => match index_of(alloc, d, frames) {
            Ok(index) => Some(index),
            Err(LockError::Memory) => None,
        },
    }
}

/// An index of the unfinished transactions, where one is kept: it is made where a walk over them would be long, and let go where that is
/// short again, or where there is no memory for it.
#[derive(Drop)]
pub struct KeptIndex {
    alloc: Global,
    pub index: Option<LockIndex>,
}

impl KeptIndex {
    /// No index yet. It takes no memory.
    pub fn new(alloc: Global) -> Self
        ensures { result.index ≡ None }
    {
        KeptIndex { alloc, index: None }
    }

    /// Brings what is kept to stand for these frames, where it stood for others that are the same but for transaction t's.
    ///
    /// Where no index is kept and a walk is short, it compares how long that is and does nothing.
    pub fn keep(&mut self, d: &Design, frames: &[Frame], t: u64)
        requires formed { IsWellFormed d.now }
        requires points { AreAtPoints d.now frames.now }
        requires apart { AreApart frames.now }
        ensures stands { (old : List Shown) → IsIndexOf d.now old self.old.index → AgreeBut t old frames.now
            → IsIndexOf d.now frames.now self.new.index }
        ensures pays { IsSome self.new.index → MOST_WALKED / 2 ≤ length d.now.entries * length frames.now }
    {
        if self.index.is_none() && walked(d, frames) < MOST_WALKED {
            return;
        }
        self.index = next_index(self.alloc, self.index.take(), d, frames, t);
    }
}
