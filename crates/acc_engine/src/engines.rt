//! The engine.
ghost use Rattle.std.specs.Prelude.{◌≡◌};
ghost use Rattle.acc_engine.specs.Calls.{answer_for};

mod seals;

use crate::acks::has_turn;
use crate::errors::{Drawn, EngineError};
use crate::marks::lowest;
use crate::noting::{note, put};
use crate::places::prepare;
use acc_base::machines::{Call, Reply, Turn};
use acc_base::sequences::Seq;
use acc_disk::Disk;
use acc_machine::{BeginError, State, TurnError};
use acc_store::Store;
use acc_wal::{LONGEST_TURN, Wal, WalError};
use std::alloc::Global;
use std::marker::Model;

/// A state of an accepted design, its journal, and the calls of a script.
///
/// Contracts see the disk, the journal's version, base text and states, the design and the state, how many events are durable, how many
/// the engine began with, the calls with a mark for each place that is begun, and whether the engine has failed. Its type keeps that the
/// journal's events are the state's history; that of the events that came since the engine was made none is a crash, and the calls that
/// began are those of the places with a mark, each once; and that at most one state waits, the text of the rows at its place. Each call
/// that changes it says what it keeps (`sound`).
#[derive(Drop)]
pub struct Engine<'a, S: Store, D: Disk> {
    state: State<'a, S>,
    wal: Wal<D>,
    calls: Seq<Call>,
    // a mark for each place that is begun; a place behind their end isn't
    begun: Vec<bool>,
    // each place below this one is begun
    lowest: usize,
    found: usize,
    // whether a fault of the disk ended it
    failed: bool,
}

impl<'a, S: Store, D: Disk> Model for Engine<'a, S, D> {
    ghost use Rattle.std.specs.Prelude.{◌≡◌, [], length};
    ghost use Rattle.acc_engine.specs.Keeping.{Journalled, IsInStep};
    ghost use Rattle.acc_engine.specs.Sealing.{AreHeld};

    ghost Value = { Journalled D };

    ghost view = { λ e. record {
      disk = e.wal.disk;
      version = e.wal.version;
      base = e.wal.base;
      seals = e.wal.seals;
      waiting = e.wal.waiting;
      design = e.state.design;
      state = e.state.world;
      settled = length e.wal.durable;
      found = e.found;
      calls = e.calls;
      begun = e.begun.items;
      failed = e.wal.spent;
    } };

    ghost invariant = { λ e. IsInStep e.state.design e.state.world e.wal.durable e.wal.tail e.found e.calls e.begun.items e.lowest
        × AreHeld e.state.design e.state.world.events e.wal.waiting × (e.failed ≡ e.wal.spent) };
}

impl<'a, S: Store, D: Disk> Engine<'a, S, D> {
    ghost use Rattle.std.specs.Prelude.{◌≡◌, ◌≢◌, ◌↔◌, ◌≤◌, ◌<◌, ◌+◌, ◌-◌, ◌^◌, ◌++◌, [], map, drop};
    ghost use Rattle.std.specs.Prelude.{List, ℕ, length, false, true, IsTrue, IfOk, IfErr, OnOk, OnErr, Ok, Err, Some, option_copied};
    ghost use Rattle.acc_io.specs.Causes.{Rose};
    ghost use Rattle.acc_disk.specs.Crashes.{Only, IsCalm};
    ghost use Rattle.acc_disk.specs.Moments.{AtAnyMoment};
    ghost use Rattle.acc_wal.specs.Fronts.{CountsFront};
    ghost use Rattle.acc_wal.specs.Spellings.{body};
    ghost use Rattle.acc_machine.specs.Begun.{HasRoom};
    ghost use Rattle.acc_machine.specs.Turned.{IsUnfinished};
    ghost use Rattle.acc_machine.specs.Kept.{IsKept};
    ghost use Rattle.acc_machine.specs.Turns.{IsTurn, AddsBy};
    ghost use Rattle.acc_engine.specs.Keeping.{CallsFit, begin_of, BeginsFrom, is_begun};
    ghost use Rattle.acc_engine.specs.Acks.{durable_reply};
    ghost use Rattle.acc_engine.specs.Calls.{StaysBut, IsUnmoved, RefusesTurn, RefusesSettling, Begins, Draws, DrawsLowest};
    ghost use Rattle.acc_engine.specs.Ready.{IsReady};
    ghost use Rattle.acc_engine.specs.Sealing.{SealedDurableOrAll};
    ghost use Rattle.acc_engine.specs.Standing.{IsSound, CountsDurableOrAll};
    ghost use Rattle.acc_engine.specs.declared.errors.EngineError.TheVariants.{Failed, Memory};

    /// An engine over a state and its settled journal, for these calls, of which none is begun. It takes no memory.
    pub fn new(alloc: Global, state: State<'a, S>, wal: Wal<D>, calls: Seq<Call>) -> Self
        requires same { wal.durable ≡ state.world.events }
        requires settled { wal.tail ≡ [] }
        requires quiet { wal.waiting ≡ [] }
        requires unspent { wal.spent ≡ false }
        requires fits { CallsFit state.design calls }
        requires few { length (body (map begin_of calls)) < 2 ^ 31 }
        ensures state { (result.state ≡ state.entry.world) × (result.design ≡ state.entry.design) }
        ensures journal { (result.disk ≡ wal.disk) × (result.base ≡ wal.base) × (result.failed ≡ false) }
        ensures states { (result.version ≡ wal.version) × (result.seals ≡ wal.seals) × (result.waiting ≡ []) }
        ensures all { (result.settled ≡ length result.state.events) × (result.found ≡ length result.state.events) }
        ensures calls { (result.calls ≡ calls) × (result.begun ≡ []) }
        ensures sound { IsSound D.told result }
    {
        let found = state.events().len();
        let _seals = wal.seals();
        Engine {
            state,
            wal,
            calls,
            begun: Vec::new(alloc),
            lowest: 0,
            found,
            failed: false,
        }
    }

    /// The state, which is good. Since the engine was made no crash came, and the calls that began are those of the marked places,
    /// each once. It takes no memory.
    pub fn state(&self) -> &State<'a, S>
        ensures state { (result.now.world ≡ self.now.state) × (result.now.design ≡ self.now.design) }
        ensures kept { IsKept self.now.design self.now.state }
        ensures begins { BeginsFrom self.now.calls self.now.begun (drop self.now.found self.now.state.events) }
    {
        &self.state
    }

    /// How many places there are, one a call.
    pub fn places(&self) -> usize
        ensures { result ≡ length self.now.calls }
    {
        self.calls.len()
    }

    /// Whether that place, counted from 1, is begun.
    pub fn is_begun(&self, place: u64) -> bool
        requires low { 1 ≤ place }
        ensures { result ≡ is_begun self.now.begun (place - 1) }
    {
        match self.begun.get((place - 1) as usize) {
            Some(mark) => *mark,
            None => false,
        }
    }

    /// How many events are durable. Unless the engine has failed, the disk's bytes are a journal of just these.
    pub fn settled(&self) -> usize
        ensures count { result ≡ self.now.settled }
        ensures within { self.now.settled ≤ length self.now.state.events }
        ensures counts { self.now.failed ≡ false → (file : List ℕ) → D.told self.now.disk ≡ Some file
            → CountsFront self.now.base self.now.state.events self.now.settled file }
    {
        self.wal.durable().len()
    }

    /// Whether a fault of the disk has ended it.
    pub fn has_failed(&self) -> bool
        ensures { result ≡ self.now.failed }
    {
        self.failed
    }

    /// Whether events have come since the engine was made.
    pub fn has_grown(&self) -> bool
        ensures { IsTrue result ↔ (self.now.found < length self.now.state.events) }
    {
        self.found < self.state.events().len()
    }

    /// What the engine keeps, for a contract. It does nothing.
    pub fn standing(&self)
        ensures { IsSound D.told self.now }
    {
        let _seals = self.wal.seals();
    }

    /// The reply of a transaction, once it has ended and its end is durable. It takes no memory, and goes over the events that aren't
    /// durable.
    pub fn ack(&self, t: u64) -> Option<&Reply>
        ensures { option_copied result ≡ durable_reply self.now t }
    {
        if has_turn(self.wal.tail(), t) {
            None
        } else {
            self.state.reply(t)
        }
    }

    /// Makes the history durable, with the states that wait, and tells how many events it has. It takes no memory.
    ///
    /// From a calm disk a crash at any moment of the call leaves a journal of the events that were durable before, or of all events:
    /// nothing between. After Ok the disk is calm. `Disk` only where the disk's count of faults rose in this call.
    pub fn settle(&mut self) -> Result<u64, EngineError>
        ensures kept { (self.new.state ≡ self.old.state) × (self.new.base ≡ self.old.base) × (self.new.design ≡ self.old.design)
            × (self.new.version ≡ self.old.version) }
        ensures calls { (self.new.calls ≡ self.old.calls) × (self.new.begun ≡ self.old.begun) × (self.new.found ≡ self.old.found) }
        ensures ok { IfOk result (λ count. (count ≡ length self.new.state.events)
            × (self.new.settled ≡ length self.new.state.events) × (self.new.failed ≡ false)) }
        ensures states { OnOk result ((self.new.seals ≡ self.old.seals ++ self.old.waiting) × (self.new.waiting ≡ [])) }
        ensures err { OnErr result ((self.new.settled ≡ self.old.settled) × (self.new.seals ≡ self.old.seals)
            × (self.new.waiting ≡ self.old.waiting)) }
        ensures why { IfErr result (λ error. RefusesSettling error self.old.failed self.new.failed
            (Rose (D.faults self.old.disk) (D.faults self.new.disk))) }
        ensures failed { self.old.failed ≡ true → (result ≡ Err Failed) × (self.new ≡ self.old) }
        ensures faults { D.faults self.old.disk ≤ D.faults self.new.disk }
        ensures calm { IsCalm (D.told self.old.disk) (D.may_leave self.old.disk)
            → OnOk result (IsCalm (D.told self.new.disk) (D.may_leave self.new.disk)) }
        ensures moments { self.old.failed ≡ false → (file : List ℕ) → D.told self.old.disk ≡ Some file
            → Only file (D.may_leave self.old.disk)
            → AtAnyMoment D.clock D.left_since self.old.disk self.new.disk
            (CountsDurableOrAll self.old.base self.old.state.events self.old.settled) }
        ensures moments_sealed { IsReady D.told D.may_leave self.old
            → AtAnyMoment D.clock D.left_since self.old.disk self.new.disk
            (SealedDurableOrAll self.old.design self.old.base self.old.state.events self.old.settled) }
        ensures ready { IsReady D.told D.may_leave self.old → OnOk result (IsReady D.told D.may_leave self.new) }
        ensures sound { IsSound D.told self.new }
    {
        let _sealed = self.wal.seals();
        let outcome = self.wal.settle();
        self.failed = outcome.is_err();
        let _seals = self.wal.seals();
        let count = self.wal.durable().len() as u64;
        match outcome {
            Ok(()) => Ok(count),
            Err(WalError::Spent) => Err(EngineError::Failed),
            Err(WalError::Disk) => Err(EngineError::Disk),
            Err(
                WalError::Exists
                | WalError::NotJournal
                | WalError::OtherVersion(_)
                | WalError::Damaged(_)
                | WalError::Memory,
            ) => unreachable!(),
        }
    }

    /// One turn of an unfinished transaction. It takes its memory first, and makes no call of the disk.
    pub fn turn(&mut self, t: u64) -> Result<Turn, EngineError>
        requires unfinished { IsUnfinished t self.old.state }
        ensures turn { IfOk result (IsTurn self.old.design self.old.state self.new.state t) }
        ensures adds { IfOk result (AddsBy self.old.state self.new.state t) }
        ensures err { OnErr result (self.new.state ≡ self.old.state) }
        ensures why { IfErr result (λ error. RefusesTurn error self.old.failed) }
        ensures failed { self.old.failed ≡ true → (result ≡ Err Failed) × (self.new ≡ self.old) }
        ensures stays { StaysBut self.old self.new }
        ensures begun { self.new.begun ≡ self.old.begun }
        ensures waiting { self.new.waiting ≡ self.old.waiting }
        ensures sound { IsSound D.told self.new }
    {
        self.standing();
        match self.wal.reserve(LONGEST_TURN) {
            Ok(()) => (),
            Err(WalError::Spent) => return Err(EngineError::Failed),
            Err(WalError::Memory) => return Err(EngineError::Memory),
            Err(
                WalError::Exists
                | WalError::NotJournal
                | WalError::OtherVersion(_)
                | WalError::Damaged(_)
                | WalError::Disk,
            ) => unreachable!(),
        }
        match self.state.turn(t) {
            Ok(turn) => {
                note(&self.state, &mut self.wal, t, turn);
                Ok(turn)
            }
            Err(TurnError::Memory) => Err(EngineError::Memory),
        }
    }

    /// Begins that place, counted from 1. It looks for room first, so `Full` and `Crowd` take no memory; then it takes its memory, and
    /// makes no call of the disk. `Empty` never comes.
    pub fn begin_at(&mut self, place: u64) -> Result<Drawn, EngineError>
        requires low { 1 ≤ place }
        requires high { place ≤ length self.old.calls }
        requires fresh { is_begun self.old.begun (place - 1) ≡ false }
        ensures ok { IfOk result (λ drawn. Draws drawn (place - 1) self.old self.new) }
        ensures err { OnErr result (IsUnmoved self.old self.new) }
        ensures why { IfErr result (λ error. RefusesTurn error self.old.failed) }
        ensures memory { IfErr result (λ error. error ≡ Memory → HasRoom self.old.state) }
        ensures failed { self.old.failed ≡ true → (result ≡ Err Failed) × (self.new ≡ self.old) }
        ensures stays { StaysBut self.old self.new }
        ensures waiting { self.new.waiting ≡ self.old.waiting }
        ensures sound { IsSound D.told self.new }
    {
        self.standing();
        if self.failed {
            return Err(EngineError::Failed);
        }
        match self.state.room() {
            Ok(()) => Ok(Drawn::Begun(self.begin_with_room(place)?)),
            Err(error) => not_begun(error),
        }
    }

    // Begins that place, counted from 1, where there is room for a call.
    fn begin_with_room(&mut self, place: u64) -> Result<u64, EngineError>
        requires low { 1 ≤ place }
        requires high { place ≤ length self.old.calls }
        requires fresh { is_begun self.old.begun (place - 1) ≡ false }
        requires unfailed { self.old.failed ≡ false }
        requires room { HasRoom self.old.state }
        ensures ok { IfOk result (λ t. Begins (place - 1) t self.old self.new) }
        ensures err { OnErr result (IsUnmoved self.old self.new) }
        ensures why { IfErr result (λ error. error ≡ Memory) }
        ensures stays { StaysBut self.old self.new }
        ensures waiting { self.new.waiting ≡ self.old.waiting }
    {
        let index = (place - 1) as usize;
        let event = prepare(&mut self.wal, &mut self.begun, self.calls.as_slice(), index)?;
        match self.state.begin(&self.calls.as_slice()[index]) {
            Ok(t) => {
                put(&mut self.wal, event);
                self.begun[index] = true;
                Ok(t)
            }
            Err(BeginError::Full | BeginError::Crowd) => unreachable!(),
            Err(BeginError::Memory) => Err(EngineError::Memory),
        }
    }

    /// Begins the lowest place that isn't begun. It looks for room first, as `begin_at` does, and makes no call of the disk.
    pub fn draw(&mut self) -> Result<Drawn, EngineError>
        ensures ok { IfOk result (λ drawn. DrawsLowest drawn self.old self.new) }
        ensures err { OnErr result (IsUnmoved self.old self.new) }
        ensures why { IfErr result (λ error. RefusesTurn error self.old.failed) }
        ensures memory { IfErr result (λ error. error ≡ Memory → HasRoom self.old.state) }
        ensures failed { self.old.failed ≡ true → (result ≡ Err Failed) × (self.new ≡ self.old) }
        ensures stays { StaysBut self.old self.new }
        ensures waiting { self.new.waiting ≡ self.old.waiting }
        ensures sound { IsSound D.told self.new }
    {
        self.standing();
        let place = lowest(&self.begun, self.lowest);
        if place < self.calls.len() {
            self.lowest = place;
            self.begin_at(place as u64 + 1)
        } else if self.failed {
            Err(EngineError::Failed)
        } else {
            Ok(Drawn::Empty)
        }
    }

    /// The state and the journal, whose events are the state's. It takes no memory.
    pub fn give_back(self) -> (State<'a, S>, Wal<D>)
        ensures state { (result.0.world ≡ self.entry.state) × (result.0.design ≡ self.entry.design) }
        ensures disk { (result.1.disk ≡ self.entry.disk) × (result.1.base ≡ self.entry.base) × (result.1.spent ≡ self.entry.failed) }
        ensures same { result.1.durable ++ result.1.tail ≡ self.entry.state.events }
        ensures settled { length result.1.durable ≡ self.entry.settled }
        ensures states { (result.1.version ≡ self.entry.version) × (result.1.seals ≡ self.entry.seals)
            × (result.1.waiting ≡ self.entry.waiting) }
    {
        let Engine {
            state,
            wal,
            calls: _,
            begun: _,
            lowest: _,
            found: _,
            failed: _,
        } = self;
        (state, wal)
    }
}

// What is answered where a call doesn't begin.
fn not_begun(error: BeginError) -> Result<Drawn, EngineError>
    ensures { result ≡ answer_for error }
{
    match error {
        BeginError::Full => Ok(Drawn::Full),
        BeginError::Crowd => Ok(Drawn::Crowd),
        BeginError::Memory => Err(EngineError::Memory),
    }
}
