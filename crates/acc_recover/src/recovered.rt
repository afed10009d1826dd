//! Recovery itself.
ghost use Rattle.std.specs.Prelude.{◌≡◌, ◌≤◌, List, ℕ, [], IfOk, IfErr, OnOk, Some, false};
ghost use Rattle.acc_io.specs.Causes.{Rose};
ghost use Rattle.acc_base.specs.declared.machines.Event.{Event};
ghost use Rattle.acc_base.specs.Annotated.{IsIdle};
ghost use Rattle.acc_print.specs.Designs.{printed};
ghost use Rattle.acc_disk.specs.Crashes.{Only, IsCalm};
ghost use Rattle.acc_disk.specs.Moments.{AtAnyMoment};
ghost use Rattle.acc_wal.specs.Journals.{Counts, CountsAll};
ghost use Rattle.acc_wal.specs.declared.items.Seal.{Seal};
ghost use Rattle.acc_wal.specs.Wals.{IsOpened};
ghost use Rattle.acc_machine.specs.Kept.{IsKept};
ghost use Rattle.acc_recover.specs.Seals.{AreFrom, AreSealsOf};
ghost use Rattle.acc_recover.specs.Recoveries.{IsRecovery, GoesOn, CountsRecovered, CountsAllRecovered, LeavesRecovery};
ghost use Rattle.acc_recover.specs.Steps.{InStep};
ghost use Rattle.acc_recover.specs.Answers.{RecoversFile, IsReplayed};
ghost use Rattle.acc_recover.specs.Refusals.{RefusesRecovery, HandsBack, RefusesText, RefusesHistory, FailsToSettle, refusal_for};
ghost use Rattle.acc_recover.specs.Refusals.{IsOfJournal, IsOfBytes, CountsSame, CountsSameAll};

use crate::endings::end_all;
use crate::errors::RecoverError;
use crate::replaying::take_all;
use crate::tellings::found_in;
use acc_base::designs::Design;
use acc_disk::Disk;
use acc_lift::Accepted;
use acc_machine::{State, StateError, TurnError};
use acc_print::{PrintError, print};
use acc_progress::Progress;
use acc_store::Store;
use acc_wal::{Wal, WalError};
use std::alloc::Global;

/// A recovered state, its journal, and how many transactions were unfinished.
#[derive(Drop)]
pub struct Recovered<'a, S: Store, D: Disk> {
    /// The state, in which nothing is unfinished.
    pub state: State<'a, S>,
    /// The journal with the state's events, all of them durable, and with the states that it had.
    pub wal: Wal<D>,
    /// How many transactions were unfinished after the events that were found.
    pub compensated: u64,
}

// Why attaching refused, in recovery's words.
fn refusal_of(error: WalError) -> RecoverError
    ensures { result ≡ refusal_for error }
{
    match error {
        WalError::Disk => RecoverError::Disk,
        WalError::Memory => RecoverError::Memory,
        WalError::Exists
        | WalError::NotJournal
        | WalError::OtherVersion(_)
        | WalError::Damaged(_)
        | WalError::Spent => RecoverError::Journal(error),
    }
}

// Whether a base text is the design's printed text.
fn is_of(alloc: Global, design: &Design, base: &[u8]) -> Result<(), RecoverError>
    ensures ok { OnOk result (base.now ≡ printed design.now) }
    ensures why { IfErr result (λ error. RefusesText error base.now (printed design.now)) }
{
    let text = match print(alloc, design) {
        Ok(text) => text,
        Err(PrintError::Memory) => return Err(RecoverError::Memory),
    };
    if base == text.as_slice() {
        Ok(())
    } else {
        Err(RecoverError::OtherDesign)
    }
}

// The state after a journal's durable events, where its base text is the design's, and none of its durable states differs.
fn replayed<'a, S: Store, D: Disk, P: Progress>(
    alloc: Global,
    d: &'a Accepted,
    s: S,
    wal: &Wal<D>,
    progress: &mut P,
) -> Result<State<'a, S>, (RecoverError, S)>
    requires empty { S.rows s ≡ [] }
    ensures ok { IfOk result (IsReplayed d.now wal.now) }
    ensures sealed { OnOk result (AreFrom 0 wal.now.seals → AreSealsOf d.now wal.now.durable wal.now.seals) }
    ensures counts { OnOk result (wal.now.spent ≡ false → (file : List ℕ) → D.told wal.now.disk ≡ Some file
        → Counts file wal.now.base wal.now.durable) }
    ensures counts_all { wal.now.spent ≡ false → (file : List ℕ) → D.told wal.now.disk ≡ Some file
        → CountsAll file wal.now.base wal.now.version wal.now.durable wal.now.seals }
    ensures why { IfErr result (λ r. RefusesHistory d.now wal.now.base wal.now.durable wal.now.seals r.0 (S.rows r.1)) }
{
    let seals = wal.seals();
    if let Err(error) = is_of(alloc, d.design(), wal.base()) {
        return Err((error, s));
    }
    let mut state = match State::new(alloc, d, s) {
        Ok(state) => state,
        Err((StateError::Memory, s)) => return Err((RecoverError::Memory, s)),
    };
    match take_all(alloc, &mut state, wal.durable(), seals, progress) {
        Ok(()) => Ok(state),
        Err(error) => Err((error, state.into_parts().0)),
    }
}

// Ends what is unfinished, and makes it durable. At any moment a crash leaves what was found, or the whole recovered history.
fn end_and_settle<S: Store, D: Disk>(
    state: &mut State<S>,
    wal: &mut Wal<D>,
) -> Result<(), RecoverError>
    requires kept { IsKept state.old.design state.old.world }
    requires in_step { InStep state.old.world.events wal.old }
    requires settled { wal.old.tail ≡ [] }
    ensures ok { OnOk result (IsRecovery state.old.design state.old.world.events state.new.world) }
    ensures durable { OnOk result (IsOpened wal.old.base state.new.world.events wal.new) }
    ensures states { OnOk result ((wal.new.version ≡ wal.old.version) × (wal.new.seals ≡ wal.old.seals)) }
    ensures goes { GoesOn state.old.design state.old.world state.new.world }
    ensures kept { IsKept state.new.design state.new.world }
    ensures why { IfErr result (λ error. FailsToSettle error (Rose (D.faults wal.old.disk) (D.faults wal.new.disk))) }
    ensures faults { D.faults wal.old.disk ≤ D.faults wal.new.disk }
    ensures moments { (file : List ℕ) → D.told wal.old.disk ≡ Some file → Only file (D.may_leave wal.old.disk)
        → Counts file wal.old.base state.old.world.events
        → AtAnyMoment D.clock D.left_since wal.old.disk wal.new.disk
        (CountsRecovered state.old.design wal.old.base state.old.world.events) }
    ensures moments_all { (file : List ℕ) → D.told wal.old.disk ≡ Some file → Only file (D.may_leave wal.old.disk)
        → CountsAll file wal.old.base wal.old.version state.old.world.events wal.old.seals
        → AtAnyMoment D.clock D.left_since wal.old.disk wal.new.disk
        (CountsAllRecovered state.old.design wal.old.base wal.old.version state.old.world.events wal.old.seals) }
    ensures calm { IsCalm (D.told wal.old.disk) (D.may_leave wal.old.disk)
        → OnOk result (IsCalm (D.told wal.new.disk) (D.may_leave wal.new.disk)) }
    ensures design { state.new.design ≡ state.old.design }
{
    match end_all(state, wal) {
        Ok(()) => (),
        Err(TurnError::Memory) => return Err(RecoverError::Memory),
    }
    match wal.settle() {
        Ok(()) => Ok(()),
        Err(_) => Err(RecoverError::Disk),
    }
}

/// Recovers the state of a disk's journal, over an empty store: the events that were found are done again, what they leave
/// unfinished is compensated, and that becomes durable as one batch. For each forward transaction a crash comes, lowest number
/// first, and then undo turns until each has ended, lowest number first. The state is idle. Each state that the journal holds beside its
/// events is the text of the rows at its place, where nothing is unfinished.
///
/// The refusals are `Journal`, `OtherDesign`, `Unlawful` and `Differs`, in this order, each exactly where the disk's bytes give cause for
/// it; `Disk`, only where the disk's count of faults rose in this call; and `Memory`. These two may come before the others.
///
/// From a calm disk a crash at any moment of the call leaves a journal of the events that were found, or of the whole recovered
/// history, with the states that were there. After Ok, and after a refusal that the bytes give cause for, the disk is calm. What is no
/// journal is left as it is.
///
/// How far a long replay is, is told now and then; and behind the recovery what it found (`found_in`).
pub fn recover<'a, S: Store, D: Disk, P: Progress>(
    alloc: Global,
    d: &'a Accepted,
    s: S,
    disk: D,
    progress: &mut P,
) -> Result<Recovered<'a, S, D>, (RecoverError, S, D)>
    requires empty { S.rows s ≡ [] }
    ensures ok { IfOk result (λ r. RecoversFile d.now (D.told disk) r.state.world r.wal r.compensated) }
    ensures idle { IfOk result (λ r. IsIdle d.now r.state.world.rows) }
    ensures design { IfOk result (λ r. r.state.design ≡ d.now) }
    ensures why { IfErr result (λ refusal. RefusesRecovery d.now refusal.0 (D.told disk) (Rose (D.faults disk) (D.faults refusal.2))) }
    ensures back { IfErr result (λ refusal. HandsBack refusal.0 d.now (D.told disk) (S.rows refusal.1)) }
    ensures moments { (file base : List ℕ) (found : List Event) → D.told disk ≡ Some file → Only file (D.may_leave disk)
        → Counts file base found
        → IfOk result (λ r. AtAnyMoment D.clock D.left_since disk r.wal.disk (CountsRecovered d.now base found)) }
    ensures moments_refused { (file base : List ℕ) (found : List Event) → D.told disk ≡ Some file → Only file (D.may_leave disk)
        → Counts file base found
        → IfErr result (λ refusal. AtAnyMoment D.clock D.left_since disk refusal.2 (CountsRecovered d.now base found)) }
    // The states that were there stay.
    ensures moments_all { (file base : List ℕ) (version : ℕ) (found : List Event) (seals : List Seal) → D.told disk ≡ Some file
        → Only file (D.may_leave disk) → CountsAll file base version found seals
        → IfOk result (λ r. AtAnyMoment D.clock D.left_since disk r.wal.disk (CountsAllRecovered d.now base version found seals)) }
    ensures moments_all_refused { (file base : List ℕ) (version : ℕ) (found : List Event) (seals : List Seal) → D.told disk ≡ Some file
        → Only file (D.may_leave disk) → CountsAll file base version found seals
        → IfErr result (λ refusal. AtAnyMoment D.clock D.left_since disk refusal.2 (CountsAllRecovered d.now base version found seals)) }
    ensures calm { IsCalm (D.told disk) (D.may_leave disk)
        → IfOk result (λ r. IsCalm (D.told r.wal.disk) (D.may_leave r.wal.disk)) }
    ensures leaves { (file : List ℕ) → D.told disk ≡ Some file → Only file (D.may_leave disk)
        → IfOk result (λ r. AtAnyMoment D.clock D.left_since disk r.wal.disk (LeavesRecovery d.now file)) }
    ensures leaves_refused { (file : List ℕ) → D.told disk ≡ Some file → Only file (D.may_leave disk)
        → IfErr result (λ refusal. AtAnyMoment D.clock D.left_since disk refusal.2 (LeavesRecovery d.now file)) }
    // What is no journal is left as it is.
    ensures unread { IfErr result (λ refusal. IsOfJournal refusal.0 → (D.told refusal.2 ≡ D.told disk)
        × ((file : List ℕ) → Only file (D.may_leave disk)
        → AtAnyMoment D.clock D.left_since disk refusal.2 (λ image. image ≡ file))) }
    // Behind each refusal that the bytes give cause for, a journal is one of the same base text, version, events and states, and a calm
    // disk is calm again.
    ensures kept { IfErr result (λ refusal. IsOfBytes refusal.0 → CountsSame (D.told disk) (D.told refusal.2)) }
    ensures kept_all { IfErr result (λ refusal. IsOfBytes refusal.0 → CountsSameAll (D.told disk) (D.told refusal.2)) }
    ensures calm_refused { IsCalm (D.told disk) (D.may_leave disk)
        → IfErr result (λ refusal. IsOfBytes refusal.0 → IsCalm (D.told refusal.2) (D.may_leave refusal.2)) }
    ensures faults { IfOk result (λ r. D.faults disk ≤ D.faults r.wal.disk) }
    ensures faults_refused { IfErr result (λ refusal. D.faults disk ≤ D.faults refusal.2) }
{
    let mut wal = match Wal::attach(alloc, disk) {
        Ok(wal) => wal,
        Err((error, disk)) => return Err((refusal_of(error), s, disk)),
    };
    let mut state = match replayed(alloc, d, s, &wal, progress) {
        Ok(state) => state,
        Err((error, s)) => return Err((error, s, wal.give_back())),
    };
    let found = found_in(&state);
    match end_and_settle(&mut state, &mut wal) {
        Ok(()) => {
            progress.recovered(found);
            Ok(Recovered {
                state,
                wal,
                compensated: found.compensated,
            })
        }
        Err(error) => Err((error, state.into_parts().0, wal.give_back())),
    }
}
