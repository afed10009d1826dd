//! States of an accepted design.
ghost use Rattle.std.specs.Prelude.{◌≡◌, [], true, slice_get, Some, None, IfOk, IfErr, OnErr, OnOk, IsTrue, IsFalse, ◌↔◌, option_copied};
ghost use Rattle.acc_base.specs.declared.machines.Cause.TheVariants.{Crash};
ghost use Rattle.acc_base.specs.declared.machines.Event.TheVariants.{Abort};
ghost use Rattle.acc_base.specs.Machine.{start, world, call_fits, unfinished, reply_at, after_event};
ghost use Rattle.acc_base.specs.Annotated.{IsAnnotated, IsIdle};
ghost use Rattle.acc_base.specs.Invariant.{IsGood};
ghost use Rattle.acc_base.specs.Locks.{IsStuck};
ghost use Rattle.acc_plain.specs.Turned.{IsUnfinished};
ghost use Rattle.acc_lift.specs.Acceptance.{IsAccepted};
ghost use Rattle.acc_machine.specs.Begun.{Begins, HasRoom, TellsRoom};
ghost use Rattle.acc_machine.specs.Holders.{IsForward, IsListed, IsHeldBack, TellsHolder};
ghost use Rattle.acc_machine.specs.Takes.{CanCome, GivesLeave, Takes};
ghost use Rattle.acc_machine.specs.Turns.{IsGoing, IsTurn, IsHeldAt, TellsHeldAt, AddsBy};

use crate::calls;
use crate::errors::{BeginError, StateError, TakeError, TurnError};
use crate::held_up::{barred, held_up};
use crate::kept_index::{KeptIndex, frame_of};
use acc_base::bounds::{MOST_EVENTS, MOST_UNFINISHED};
use acc_base::designs::Side;
use acc_base::machines::{Call, Cause, Event, Frame, Reply, Turn};
use acc_base::sequences::Seq;
use acc_lift::Accepted;
use acc_lock_index::LockError;
use acc_plain::{Machine, PlainError};
use acc_store::Store;
use std::alloc::Global;
use std::marker::Model;

/// A state of an accepted design. Contracts see the design and the state after the events so far, which is good: its type keeps
/// that the events are lawful and lead to these rows, frames and replies, that each assertion is true where its frame stands, and
/// that all unfinished transactions are compatible.
///
/// A turn costs what its step's look-ups and writes cost, and who blocks it: two walks over the design's entries for each unfinished
/// transaction where these are few, and where entries times unfinished are 1,024 or more one walk over the entries, by an index. The
/// index is kept behind each event, and takes memory; where there is none for it, it is let go, and no call answers otherwise for that.
/// Nothing depends on the length of the history.
#[derive(Drop)]
pub struct State<'a, S: Store> {
    accepted: &'a Accepted,
    machine: Machine<'a, S>,
    kept: KeptIndex,
}

impl<'a, S: Store> Model for State<'a, S> {
    ghost use Rattle.acc_plain.specs.Running.{Running};
    ghost use Rattle.acc_machine.specs.IndexedStates.{IsStateOf};

    ghost Value = { Running };

    ghost view = { λ s. s.machine };

    ghost invariant = { λ s. IsStateOf s.accepted.now s.machine.design s.machine.world s.kept.index };
}

impl<'a, S: Store> State<'a, S> {
    /// The state before any event, over an empty store, with room for 64 frames. Where memory runs out the store is handed back,
    /// still empty.
    pub fn new(alloc: Global, accepted: &'a Accepted, store: S) -> Result<Self, (StateError, S)>
        requires empty { S.rows store ≡ [] }
        ensures design { IfOk result (λ s. s.design ≡ accepted.now) }
        ensures start { IfOk result (λ s. s.world ≡ start) }
        ensures store { IfErr result (λ e. S.rows e.1 ≡ []) }
    {
        let kept = KeptIndex::new(alloc);
        let mut machine = Machine::new(alloc, accepted.design(), store);
        match machine.reserve(MOST_UNFINISHED) {
            Ok(()) => Ok(State {
                accepted,
                machine,
                kept,
            }),
            Err(PlainError::Memory) => Err((StateError::Memory, machine.into_parts().0)),
        }
    }

    /// The events so far, oldest first. They are lawful and lead to this state; and they are annotated: as each of them came, the
    /// assertion of each unfinished transaction was true.
    pub fn events(&self) -> &Seq<Event>
        ensures events { result.now ≡ self.now.world.events }
        ensures run { world self.now.design self.now.world.events ≡ Some self.now.world }
        ensures good { IsGood self.now.design self.now.world }
        ensures annotated { IsAnnotated self.now.design self.now.world.events }
        ensures accepted { IsAccepted self.now.design }
    {
        self.machine.events()
    }

    /// The frames of the transactions that have begun and haven't ended, in order of number. Where there are none, the state is
    /// idle: what is asserted for all times is true of the rows, and none of them is private.
    pub fn unfinished(&self) -> &[Frame]
        ensures frames { result.now ≡ unfinished self.now.world }
        ensures idle { unfinished self.now.world ≡ [] → IsIdle self.now.design self.now.world.rows }
    {
        self.machine.unfinished()
    }

    /// Whether a transaction has begun and hasn't ended. It costs the logarithm of how many are unfinished.
    pub fn is_unfinished(&self, t: u64) -> bool
        ensures { IsTrue result ↔ IsUnfinished t self.now.world }
    {
        self.machine.is_unfinished(t)
    }

    /// The reply of a transaction, once it has ended.
    pub fn reply(&self, t: u64) -> Option<&Reply>
        ensures { option_copied result ≡ reply_at t self.now.world }
    {
        self.machine.reply(t)
    }

    /// The rows, kept in the store.
    pub fn store(&self) -> &S
        ensures { S.rows result.now ≡ self.now.world.rows }
    {
        self.machine.store()
    }

    /// The rows, kept in the store, and the events, oldest first. They are lawful, and the rows are those after them.
    pub fn into_parts(self) -> (S, Seq<Event>)
        ensures store { S.rows result.0 ≡ self.entry.world.rows }
        ensures events { result.1 ≡ self.entry.world.events }
        ensures good { IsGood self.entry.design self.entry.world }
    {
        let State {
            accepted: _,
            machine,
            kept: _,
        } = self;
        machine.into_parts()
    }

    /// Why no call can begin now, if none can: `Full` or else `Crowd`, and never `Memory`. It takes no memory.
    pub fn room(&self) -> Result<(), BeginError>
        ensures { TellsRoom self.now.world result }
    {
        if self.machine.events().len() >= MOST_EVENTS {
            return Err(BeginError::Full);
        }
        if self.machine.unfinished().len() >= MOST_UNFINISHED {
            return Err(BeginError::Crowd);
        }
        Ok(())
    }

    /// Begins a call that fits its type. It answers the new transaction's number, one above all before; `Memory` only where there is
    /// room for the call.
    pub fn begin(&mut self, call: &Call) -> Result<u64, BeginError>
        requires fits { call_fits (slice_get self.old.design.types call.now.ty) call.now ≡ true }
        ensures answer { Begins self.old.design self.old.world self.new.world call.now result }
        ensures design { self.new.design ≡ self.old.design }
    {
        self.room()?;
        let d = self.accepted.design();
        match calls::begin(&mut self.machine, &mut self.kept, d, call) {
            Ok(t) => Ok(t),
            Err(PlainError::Memory) => Err(BeginError::Memory),
        }
    }
}

impl<'a, S: Store> State<'a, S> {
    /// Who blocks the step of a forward transaction that nothing stops: the lowest holder, and its lowest entry.
    fn holder(&self, f: &Frame) -> Option<(u64, u32)>
        requires forward { IsForward self.now.world f.now }
        ensures { TellsHolder self.now.design self.now.world f.now result }
    {
        held_up(
            self.accepted.design(),
            self.machine.unfinished(),
            f,
            self.machine.store(),
        )
    }

    /// Who blocks it, by the index where one is kept and there is memory to ask it.
    fn first_holder(&self, f: &Frame) -> Option<(u64, u32)>
        requires forward { IsForward self.now.world f.now }
        ensures { TellsHolder self.now.design self.now.world f.now result }
    {
        let Some(index) = &self.kept.index else {
            return self.holder(f);
        };
        match barred(self.accepted.design(), index, f, self.machine.store()) {
            Ok(found) => found,
            Err(LockError::Memory) => self.holder(f),
        }
    }

    /// Who blocks a frame's step, if it is forward and nothing stops it.
    fn held_frame(&self, f: &Frame) -> Option<(u64, u32)>
        requires listed { IsListed self.now.world f.now }
        ensures { TellsHeldAt self.now.design self.now.world f.now.t result }
    {
        let _accepted = self.accepted;
        match f.side {
            Side::Next => self.first_holder(f),
            Side::Undo => None,
        }
    }

    /// Who blocks the step of a transaction, if it is forward and nothing stops its step.
    fn held_at(&self, t: u64) -> Option<(u64, u32)>
        ensures { TellsHeldAt self.now.design self.now.world t result }
    {
        match frame_of(self.machine.unfinished(), t) {
            Some(f) => self.held_frame(f),
            None => None,
        }
    }

    /// Whether a transaction is forward, nothing stops its step, and some transaction blocks it.
    fn is_held_back(&self, f: &Frame) -> bool
        requires listed { IsListed self.now.world f.now }
        ensures held { IsTrue result → IsHeldBack self.now.design self.now.world f.now }
        ensures free { IsFalse result → ¬ IsHeldBack self.now.design self.now.world f.now }
    {
        let _accepted = self.accepted;
        match f.side {
            Side::Next => match self.holder(f) {
                Some(_) => true,
                None => false,
            },
            Side::Undo => false,
        }
    }

    /// Whether there are unfinished transactions, and each is forward, nothing stops its step, and another blocks it.
    ///
    /// It takes no memory. It ends at the first that can go on, and costs for each up to there its step's look-ups, and for each
    /// pair two walks over the design's entries.
    pub fn stuck(&self) -> bool
        ensures stuck { IsTrue result → IsStuck self.now.design self.now.world }
        ensures free { IsFalse result → ¬ IsStuck self.now.design self.now.world }
    {
        let frames = self.machine.unfinished();
        if frames.is_empty() {
            return false;
        }
        for i in 0..frames.len() {
            if !self.is_held_back(&frames[i]) {
                return false;
            }
        }
        true
    }
}

impl<'a, S: Store> State<'a, S> {
    /// The turn of an unfinished transaction. It answers the first that applies.
    ///
    /// A forward one turns where its call asked for it after so many steps, where its limit is reached, where a number of its step
    /// leaves ±2^45, and where its step refuses. Where another transaction blocks its step it turns as a victim if all are stuck;
    /// else it is blocked, by the lowest holder and its lowest entry, and nothing changes. Else it takes its step. One that is
    /// being undone takes its undo step, which nothing blocks, refuses or puts out of range.
    pub fn turn(&mut self, t: u64) -> Result<Turn, TurnError>
        requires unfinished { IsUnfinished t self.old.world }
        ensures turn { IfOk result (IsTurn self.old.design self.old.world self.new.world t) }
        ensures adds { IfOk result (AddsBy self.old.world self.new.world t) }
        ensures err { OnErr result (self.new.world ≡ self.old.world) }
        ensures design { self.new.design ≡ self.old.design }
    {
        match self.held_at(t) {
            Some((holder, entry)) => self.wait(t, holder, entry),
            None => self.go(t),
        }
    }

    /// The turn of the plain machine, for a transaction whose step nobody blocks.
    fn go(&mut self, t: u64) -> Result<Turn, TurnError>
        requires unfinished { IsUnfinished t self.old.world }
        requires free { TellsHeldAt self.old.design self.old.world t None }
        ensures turn { IfOk result (IsTurn self.old.design self.old.world self.new.world t) }
        ensures adds { IfOk result (AddsBy self.old.world self.new.world t) }
        ensures err { OnErr result (self.new.world ≡ self.old.world) }
        ensures design { self.new.design ≡ self.old.design }
    {
        let d = self.accepted.design();
        match calls::turn(&mut self.machine, &mut self.kept, d, t) {
            Ok(Some(turn)) => Ok(turn),
            Ok(None) => unreachable!(),
            Err(PlainError::Memory) => Err(TurnError::Memory),
        }
    }

    /// The turn of a transaction whose step this one blocks through this entry.
    fn wait(&mut self, t: u64, holder: u64, entry: u32) -> Result<Turn, TurnError>
        requires held { IsHeldAt self.old.design self.old.world t (holder, entry) }
        ensures turn { IfOk result (IsTurn self.old.design self.old.world self.new.world t) }
        ensures adds { IfOk result (AddsBy self.old.world self.new.world t) }
        ensures err { OnErr result (self.new.world ≡ self.old.world) }
        ensures design { self.new.design ≡ self.old.design }
    {
        if !self.stuck() {
            return Ok(Turn::Blocked(holder, entry));
        }
        match self.turn_back(t, Cause::Victim) {
            Ok(()) => Ok(Turn::Turned(Cause::Victim)),
            Err(TurnError::Memory) => Err(TurnError::Memory),
        }
    }

    /// Turns a transaction to its undo side for a cause that may come now.
    fn turn_back(&mut self, t: u64, cause: Cause) -> Result<(), TurnError>
        requires comes { CanCome self.old.design self.old.world (Abort t cause) }
        ensures ok { OnOk result (after_event self.old.design self.old.world (Abort t cause) ≡ Some self.new.world) }
        ensures err { OnErr result (self.new.world ≡ self.old.world) }
        ensures design { self.new.design ≡ self.old.design }
    {
        let d = self.accepted.design();
        match calls::take(
            &mut self.machine,
            &mut self.kept,
            d,
            &Event::Abort(t, cause),
        ) {
            Ok(_) => Ok(()),
            Err(PlainError::Memory) => Err(TurnError::Memory),
        }
    }

    /// Turns a forward transaction to its undo side, because of a crash.
    pub fn crash(&mut self, t: u64) -> Result<(), TurnError>
        requires forward { IsGoing t self.old.world }
        ensures ok { OnOk result (after_event self.old.design self.old.world (Abort t Crash) ≡ Some self.new.world) }
        ensures err { OnErr result (self.new.world ≡ self.old.world) }
        ensures design { self.new.design ≡ self.old.design }
    {
        self.turn_back(t, Cause::Crash)
    }
}

impl<'a, S: Store> State<'a, S> {
    /// Whether fewer than 2^20 events have come and fewer than 64 transactions are unfinished.
    fn has_room(&self) -> bool
        ensures { IsTrue result ↔ HasRoom self.now.world }
    {
        self.room().is_ok()
    }

    /// Whether the rules of locks and the limits give leave for an event.
    fn has_leave(&self, event: &Event) -> bool
        ensures { GivesLeave self.now.design self.now.world event.now result }
    {
        match event {
            Event::Begin(_) => self.has_room(),
            Event::Step(t) => self.held_at(*t).is_none(),
            Event::Abort(_, Cause::Victim) => self.stuck(),
            Event::Abort(
                _,
                Cause::Refused(_) | Cause::Range | Cause::Limit | Cause::Asked | Cause::Crash,
            )
            | Event::Undo(_) => true,
        }
    }

    /// Does exactly this event, where it is lawful in this state; where it isn't, nothing changes.
    pub fn take(&mut self, event: &Event) -> Result<(), TakeError>
        ensures taken { Takes self.old.design self.old.world self.new.world event.now result }
        ensures design { self.new.design ≡ self.old.design }
    {
        if !self.has_leave(event) {
            return Err(TakeError::Unlawful);
        }
        let d = self.accepted.design();
        match calls::take(&mut self.machine, &mut self.kept, d, event) {
            Ok(true) => Ok(()),
            Ok(false) => Err(TakeError::Unlawful),
            Err(PlainError::Memory) => Err(TakeError::Memory),
        }
    }
}
