//! Telling which consistency conditions of TPC-C are true of a recovered journal.
ghost use Rattle.std.specs.Prelude.{◌≡◌, ◌≢◌, ◌≤◌, List, ℕ, Some, IfOk, IfSome};
ghost use Rattle.acc_io.specs.Causes.{Rose};
ghost use Rattle.acc_disk.specs.Crashes.{Only, IsCalm};
ghost use Rattle.acc_disk.specs.Moments.{AtAnyMoment};
ghost use Rattle.acc_recover.specs.Recoveries.{LeavesRecovery};
ghost use Rattle.tpcc_tables.specs.Schema.{IsSchemaOf};
ghost use Rattle.acc_journalled.specs.declared.answers.Ending.TheVariants.{DiskFailed};
ghost use Rattle.acc_journalled.specs.Tellings.{telling_of};
ghost use Rattle.acc_journalled.specs.Recovering.{TellsRecovered, LeavesTold};
ghost use Rattle.acc_journalled.specs.Verifying.{VerifiesJournal, verdicts_text};

use crate::answers::Ended;
use crate::conditions::judge_store;
use crate::sealing::recover_sealed;
use acc_disk::Disk;
use acc_lift::Accepted;
use acc_progress::Progress;
use acc_recover::Recovered;
use std::alloc::Global;
use tpcc_tables::TableSet;

/// Recovers the journal of an accepted design as `recover_journal` does, and tells of each consistency condition of TPC-C whether it is
/// true of the recovered rows. The set has the numbers of the schema's tables in the design.
///
/// It ends as done where each is true, and else so that one is false. What it and a crash in it leave is what `recover_journal` leaves.
pub fn verify_journal<D: Disk, P: Progress>(
    alloc: Global,
    d: &Accepted,
    tables: &TableSet,
    disk: D,
    progress: &mut P,
) -> Ended<D>
    requires schema { IsSchemaOf tables.now d.now }
    ensures answer { IfOk result.answer (λ a. VerifiesJournal tables.now d.now (D.told disk) (D.told result.disk)
        (Rose (D.faults disk) (D.faults result.disk)) (telling_of a result.history result.settled)) }
    ensures recorded { TellsRecovered (verdicts_text tables.now) d.now (D.told disk) (D.told result.disk)
        (Rose (D.faults disk) (D.faults result.disk)) result.history result.settled }
    ensures moments { (file : List ℕ) → D.told disk ≡ Some file → Only file (D.may_leave disk)
        → AtAnyMoment D.clock D.left_since disk result.disk (LeavesRecovery d.now file) }
    ensures left { (file : List ℕ) → D.told disk ≡ Some file → Only file (D.may_leave disk)
        → IfSome (D.told result.disk) (LeavesRecovery d.now file) }
    ensures behind { (file : List ℕ) → D.told disk ≡ Some file → Only file (D.may_leave disk)
        → (image : List ℕ) → D.may_leave result.disk image → LeavesTold d.now result.history image }
    ensures calm { IfOk result.answer (λ a. a.ending ≢ DiskFailed → IsCalm (D.told disk) (D.may_leave disk)
        → IsCalm (D.told result.disk) (D.may_leave result.disk)) }
    ensures faults { D.faults disk ≤ D.faults result.disk }
{
    match recover_sealed(alloc, d, disk, progress) {
        Ok(found) => {
            let Recovered { state, wal, .. } = found;
            let (store, history) = state.into_parts();
            Ended {
                disk: wal.give_back(),
                settled: history.len() as u64,
                history,
                answer: judge_store(alloc, tables, &store),
            }
        }
        Err(ended) => ended,
    }
}
