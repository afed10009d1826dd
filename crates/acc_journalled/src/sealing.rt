//! Recovering a journal, with the text of its rows behind what was compensated.
ghost use Rattle.std.specs.Prelude.{◌≡◌, ◌≢◌, ◌≤◌, ◌<◌, List, ℕ, [], length, false, Some, IfOk, IfErr, OnOk};
ghost use Rattle.acc_base.specs.Annotated.{IsIdle};
ghost use Rattle.acc_base.specs.Machine.{unfinished};
ghost use Rattle.acc_io.specs.Causes.{Rose};
ghost use Rattle.acc_disk.specs.Crashes.{Only, IsCalm};
ghost use Rattle.acc_disk.specs.Moments.{AtAnyMoment};
ghost use Rattle.acc_engine.specs.Calls.{StopsSealing};
ghost use Rattle.acc_engine.specs.Sealing.{NeedsNoSeal};
ghost use Rattle.acc_engine.specs.declared.errors.EngineError.TheVariants.{Disk, Failed};
ghost use Rattle.acc_wal.specs.Journals.{Counts, CountsAll};
ghost use Rattle.acc_wal.specs.Wals.{IsOpened};
ghost use Rattle.acc_recover.specs.Answers.{RecoversFile};
ghost use Rattle.acc_recover.specs.Recoveries.{LeavesRecovery};
ghost use Rattle.acc_recover.specs.Seals.{AreSealsOf};
ghost use Rattle.acc_journalled.specs.declared.answers.Ending.TheVariants.{DiskFailed};
ghost use Rattle.acc_journalled.specs.Tellings.{telling_of, fault_text};
ghost use Rattle.acc_journalled.specs.Recovering.{RecoversState, EndsUntold, TellsUntold, LeavesTold};

use crate::answers::{Answer, Ended, Ending, unrun};
use crate::lines::{not_recovered, one_line};
use crate::rows::empty_rows;
use acc_base::sequences::Seq;
use acc_disk::Disk;
use acc_engine::{Engine, EngineError};
use acc_index_store::IndexStore;
use acc_lift::Accepted;
use acc_machine::State;
use acc_progress::Progress;
use acc_recover::{Recovered, recover};
use acc_store::Store;
use acc_wal::Wal;
use std::alloc::{AllocError, Global};

/// A state and its journal, and whether the text of the rows stands behind its events.
#[derive(Drop)]
struct Put<'a, S: Store, D: Disk> {
    state: State<'a, S>,
    wal: Wal<D>,
    outcome: Result<(), EngineError>,
}

/// Puts the text of a state's rows behind the events of its journal, all of which are durable, where any of so many transactions was
/// compensated and there is a text to put.
fn put_text<'a, S: Store, D: Disk>(
    alloc: Global,
    state: State<'a, S>,
    wal: Wal<D>,
    compensated: u64,
) -> Put<'a, S, D>
    requires opened { (wal.durable ≡ state.world.events) × (wal.tail ≡ []) × (wal.waiting ≡ []) × (wal.spent ≡ false) }
    requires ended { unfinished state.world ≡ [] }
    ensures state { (result.state.world ≡ state.entry.world) × (result.state.design ≡ state.entry.design) }
    ensures opened { result.wal.spent ≡ false → IsOpened wal.base state.entry.world.events result.wal }
    ensures ok { OnOk result.outcome ((result.wal.spent ≡ false)
        × (0 < compensated → NeedsNoSeal result.wal.version result.wal.seals state.entry.world)) }
    ensures why { IfErr result.outcome (λ error. StopsSealing error false result.wal.spent
        (Rose (D.faults wal.disk) (D.faults result.wal.disk))) }
    ensures counts { result.wal.spent ≡ false → (file : List ℕ) → D.told result.wal.disk ≡ Some file
        → CountsAll file result.wal.base result.wal.version result.wal.durable result.wal.seals }
    ensures moments { IsCalm (D.told wal.disk) (D.may_leave wal.disk)
        → AreSealsOf state.entry.design state.entry.world.events wal.seals
        → AtAnyMoment D.clock D.left_since wal.disk result.wal.disk (λ image. Counts image wal.base state.entry.world.events) }
    ensures behind { IsCalm (D.told wal.disk) (D.may_leave wal.disk)
        → AreSealsOf state.entry.design state.entry.world.events wal.seals
        → (image : List ℕ) → D.may_leave result.wal.disk image → Counts image wal.base state.entry.world.events }
    ensures calm { IsCalm (D.told wal.disk) (D.may_leave wal.disk)
        → AreSealsOf state.entry.design state.entry.world.events wal.seals
        → result.wal.spent ≡ false → IsCalm (D.told result.wal.disk) (D.may_leave result.wal.disk) }
    ensures faults { D.faults wal.disk ≤ D.faults result.wal.disk }
{
    let _seals = wal.seals();
    if compensated == 0 {
        return Put {
            state,
            wal,
            outcome: Ok(()),
        };
    }
    let mut engine = Engine::new(alloc, state, wal, Seq::new(alloc));
    let outcome = engine.seal_and_settle(alloc);
    let (state, wal) = engine.give_back();
    let _sealed = wal.seals();
    Put {
        state,
        wal,
        outcome,
    }
}

/// What is said where the text of the rows isn't put: a fault of the disk, or nothing, where memory ran out.
fn not_put(alloc: Global, error: EngineError) -> Result<Answer, AllocError>
    requires { error ≢ Failed }
    ensures says { IfOk result (λ a. (a.ending ≡ DiskFailed) × (a.text.items ≡ fault_text)) }
    ensures disk { IfOk result (λ a. error ≡ Disk) }
{
    match error {
        EngineError::Disk => one_line(alloc, Ending::DiskFailed, "fault disk"),
        EngineError::Memory => Err(AllocError),
        EngineError::Failed => unreachable!(),
    }
}

/// How a command ends where the text of a recovered state's rows isn't put: the recovered history is told.
fn unput<'a, S: Store + Drop, D: Disk>(
    alloc: Global,
    state: State<'a, S>,
    wal: Wal<D>,
    error: EngineError,
) -> Ended<D>
    requires { error ≢ Failed }
    ensures disk { result.disk ≡ wal.disk }
    ensures told { (result.history ≡ state.entry.world.events) × (result.settled ≡ length state.entry.world.events) }
    ensures says { IfOk result.answer (λ a. (a.ending ≡ DiskFailed) × (a.text.items ≡ fault_text)) }
    ensures failed { IfOk result.answer (λ a. error ≡ Disk) }
{
    let answer = not_put(alloc, error);
    let (_, history) = state.into_parts();
    Ended {
        disk: wal.give_back(),
        settled: history.len() as u64,
        history,
        answer,
    }
}

/// Recovers the journal of an accepted design, and puts the text of its rows behind it where anything was compensated; or tells how a
/// command ends that couldn't: the journal is refused, the disk failed, or memory ran out. Where that came behind the recovery, the
/// recovered history is told.
///
/// From a calm disk a crash at any moment leaves a journal of the events that were found, or of the whole recovered history; one behind the
/// call leaves one of all events of the state, or of all that are told. The disk is calm again, unless one of its calls failed. What is no
/// journal is left as it is.
pub fn recover_sealed<'a, D: Disk, P: Progress>(
    alloc: Global,
    d: &'a Accepted,
    disk: D,
    progress: &mut P,
) -> Result<Recovered<'a, IndexStore, D>, Ended<D>>
    ensures ok { IfOk result (λ r. RecoversState d.now (D.told disk) (D.told r.wal.disk) r.state.world r.compensated) }
    ensures design { IfOk result (λ r. r.state.design ≡ d.now) }
    ensures ended { IfOk result (λ r. unfinished r.state.world ≡ []) }
    ensures moments { (file : List ℕ) → D.told disk ≡ Some file → Only file (D.may_leave disk)
        → IfOk result (λ r. AtAnyMoment D.clock D.left_since disk r.wal.disk (LeavesRecovery d.now file)) }
    ensures calm { IsCalm (D.told disk) (D.may_leave disk)
        → IfOk result (λ r. IsCalm (D.told r.wal.disk) (D.may_leave r.wal.disk)) }
    ensures faults { IfOk result (λ r. D.faults disk ≤ D.faults r.wal.disk) }
    // How it ends otherwise.
    ensures untold { IfErr result (λ e. IfOk e.answer (λ a. EndsUntold d.now (D.told disk) (D.told e.disk)
        (Rose (D.faults disk) (D.faults e.disk)) (telling_of a e.history e.settled))) }
    ensures recorded { IfErr result (λ e. TellsUntold d.now (D.told disk) (D.told e.disk)
        (Rose (D.faults disk) (D.faults e.disk)) e.history e.settled) }
    ensures moments_untold { (file : List ℕ) → D.told disk ≡ Some file → Only file (D.may_leave disk)
        → IfErr result (λ e. AtAnyMoment D.clock D.left_since disk e.disk (LeavesRecovery d.now file)) }
    ensures behind_untold { (file : List ℕ) → D.told disk ≡ Some file → Only file (D.may_leave disk)
        → IfErr result (λ e. (image : List ℕ) → D.may_leave e.disk image → LeavesTold d.now e.history image) }
    ensures calm_untold { IfErr result (λ e. IfOk e.answer (λ a. a.ending ≢ DiskFailed → IsCalm (D.told disk) (D.may_leave disk)
        → IsCalm (D.told e.disk) (D.may_leave e.disk))) }
    ensures faults_untold { IfErr result (λ e. D.faults disk ≤ D.faults e.disk) }
{
    let Some(rows) = empty_rows(alloc, d) else {
        return Err(unrun(alloc, disk, Err(AllocError)));
    };
    let found = match recover(alloc, d, rows, disk, progress) {
        Ok(found) => found,
        Err((error, _, disk)) => return Err(unrun(alloc, disk, not_recovered(alloc, error))),
    };
    let Recovered {
        state,
        wal,
        compensated,
    } = found;
    let _events = state.events();
    let put = put_text(alloc, state, wal, compensated);
    match put.outcome {
        Ok(()) => Ok(Recovered {
            state: put.state,
            wal: put.wal,
            compensated,
        }),
        Err(error) => Err(unput(alloc, put.state, put.wal, error)),
    }
}
