//! One event more, and what is found after it.
ghost use Rattle.std.specs.Prelude.{◌≡◌, ◌⊎◌, ◌<◌, ◌≤◌, ◌+◌, ◌^◌, length, IfOk};
ghost use Rattle.acc_formed.specs.WellFormed.{IsWellFormed};
ghost use Rattle.acc_audit.specs.declared.steps.AuditError.TheVariants.{Memory as OutOfMemory};
ghost use Rattle.acc_audit.specs.Audits.{IsClear, IsFirstIn};
ghost use Rattle.acc_audit.specs.Events.{told, TellsEvent};
ghost use Rattle.acc_audit.specs.Since.{IsKnown, known_at, moved_by};
ghost use Rattle.acc_base.specs.Machine.{unfinished};

use crate::frames::{KnownBefore, state_complaint};
use crate::writes::{moved_by, writes_of};
use acc_audit_complaints::Complaint;
use acc_audit_ranges::KeyedStore;
use acc_base::designs::Design;
use acc_base::machines::{Event, Frame};
use acc_base::sequences::Seq;
use acc_plain::{Machine, PlainError};
use acc_store::{Store, StoreError, Write};
use std::alloc::{AllocError, Global};

/// What an audit finds.
#[derive(Drop)]
pub enum AuditFinding {
    /// After no event a clause is false at values of its ranges.
    Clean,
    /// After so many events, from 1, a clause is false: the number of the transaction whose point it is of, or 0 where it is asserted
    /// at all times; the clause's number there, from 1; and values for its own variables.
    False(u64, u64, u32, Seq<i64>),
}

/// Why an audit isn't done.
#[derive(Clone, Copy)]
pub enum AuditError {
    /// The event behind so many is none that the machine allows there.
    NotRun(u64),
    /// After so many events, from 1, a clause can't be told of, by its transaction, or 0, and its number there, from 1: it has more than
    /// 2^20 tuples of values, or a product or a sum of its trial leaves ±2^120.
    Large(u64, u64, u32),
    /// Memory ran out.
    Memory,
}

impl From<AllocError> for AuditError {
    ghost from_gives = { λ _ e. e ≡ OutOfMemory };

    fn from(_: AllocError) -> Self {
        AuditError::Memory
    }
}

impl From<StoreError> for AuditError {
    ghost from_gives = { λ _ e. e ≡ OutOfMemory };

    fn from(error: StoreError) -> Self {
        match error {
            StoreError::Memory => AuditError::Memory,
        }
    }
}

impl From<PlainError> for AuditError {
    ghost from_gives = { λ _ e. e ≡ OutOfMemory };

    fn from(error: PlainError) -> Self {
        match error {
            PlainError::Memory => AuditError::Memory,
        }
    }
}

/// The first complaint in a machine's state.
fn complaint_now<S: Store>(
    alloc: Global,
    d: &Design,
    machine: &Machine<'_, KeyedStore<S>>,
    known: Option<KnownBefore<'_>>,
) -> Result<Option<(u64, u32, Complaint)>, AllocError>
    requires formed { IsWellFormed d.now }
    requires design { machine.now.design ≡ d.now }
    requires few { length machine.now.world.events < 2 ^ 31 }
    requires known { IsKnown d.now machine.now.world.rows (unfinished machine.now.world) known }
    ensures { IfOk result (IsFirstIn d.now machine.now.world.rows (unfinished machine.now.world)) }
{
    let _run = machine.events();
    state_complaint(alloc, d, machine.store(), machine.unfinished(), known)
}

/// What is known behind so many events of the state before the last: nothing, where that was the state before any event.
fn known_at<'a>(
    place: u64,
    event: &Event,
    frames: &[Frame],
    writes: &'a [Write],
) -> Option<KnownBefore<'a>>
    ensures { result ≡ known_at place (moved_by event.now frames.now) writes.entry }
{
    if place == 0 {
        return None;
    }
    Some(KnownBefore {
        writes,
        moved: moved_by(event, frames),
    })
}

/// What a complaint tells after so many events.
fn told(
    place: u64,
    found: Option<(u64, u32, Complaint)>,
) -> Result<Option<AuditFinding>, AuditError>
    ensures { result ≡ told place found }
{
    match found {
        Some((t, clause, Complaint::False(values))) => {
            Ok(Some(AuditFinding::False(place, t, clause, values)))
        }
        Some((t, clause, Complaint::Large)) => Err(AuditError::Large(place, t, clause)),
        None => Ok(None),
    }
}

/// Does one event more, behind so many, and tells what is found after it: none where nothing is. Nothing may have been found before it.
pub fn take_event<S: Store>(
    alloc: Global,
    d: &Design,
    machine: &mut Machine<'_, KeyedStore<S>>,
    place: u64,
    event: &Event,
) -> Result<Option<AuditFinding>, AuditError>
    requires formed { IsWellFormed d.now }
    requires design { machine.old.design ≡ d.now }
    requires few { length machine.old.world.events < 2 ^ 30 }
    requires place { place < 2 ^ 30 }
    requires clear { (place ≡ 0) ⊎ IsClear d.now machine.old.world.rows (unfinished machine.old.world) }
    ensures told { TellsEvent d.now machine.old.world event.now place machine.new.world result }
    ensures design { machine.new.design ≡ d.now }
    ensures count { length machine.new.world.events ≤ length machine.old.world.events + 1 }
{
    let writes = writes_of(alloc, d, machine, event)?;
    if !machine.take(event)? {
        return Err(AuditError::NotRun(place));
    }
    let _run = machine.events();
    let known = known_at(place, event, machine.unfinished(), writes.as_slice());
    let found = complaint_now(alloc, d, machine, known)?;
    told(place + 1, found)
}
