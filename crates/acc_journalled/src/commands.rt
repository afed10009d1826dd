//! The commands.
ghost use Rattle.std.specs.Prelude.{◌≡◌, ◌≢◌, ◌≤◌, ◌<◌, ◌^◌, List, ℕ, [], length, codes, Some, IfOk, IfSome};
ghost use Rattle.acc_io.specs.Causes.{Rose};
ghost use Rattle.acc_base.specs.Lines.{line};
ghost use Rattle.acc_print.specs.Designs.{printed};
ghost use Rattle.acc_disk.specs.Crashes.{Only, IsCalm};
ghost use Rattle.acc_disk.specs.Moments.{AtAnyMoment};
ghost use Rattle.acc_wal.specs.Creating.{LeavesNew};
ghost use Rattle.acc_recover.specs.Recoveries.{LeavesRecovery};
ghost use Rattle.acc_journalled.specs.declared.answers.Ending.TheVariants.{Done, DiskFailed};
ghost use Rattle.acc_journalled.specs.Tellings.{telling_of, unrun_telling, Says};
ghost use Rattle.acc_journalled.specs.Making.{MakesJournal};
ghost use Rattle.acc_journalled.specs.Recovering.{RecoversJournal, TellsRecovered, LeavesTold, text_of};

use crate::answers::{Answer, Ended, Ending, Wanted, unrun};
use crate::lines::{not_made, one_line, tell_state};
use crate::sealing::recover_sealed;
use acc_base::designs::Design;
use acc_disk::Disk;
use acc_lift::Accepted;
use acc_print::{PrintError, print};
use acc_progress::Progress;
use acc_recover::Recovered;
use acc_wal::Wal;
use std::alloc::{AllocError, Global};

/// The printed text of a design, and what is said once it is a journal's.
#[derive(Drop)]
struct Prepared {
    text: Vec<u8>,
    created: Answer,
}

/// What making a journal needs, before the disk is asked.
fn prepare(alloc: Global, d: &Design) -> Result<Prepared, AllocError>
    ensures text { IfOk result (λ p. p.text.items ≡ printed d.now) }
    ensures created { IfOk result (λ p. Says Done (line (codes "created")) (unrun_telling p.created)) }
{
    let text = match print(alloc, d) {
        Ok(text) => text,
        Err(PrintError::Memory) => return Err(AllocError),
    };
    let created = one_line(alloc, Ending::Done, "created")?;
    Ok(Prepared { text, created })
}

/// Makes a journal for a design, on a disk that holds none: its base text is the design's printed text, and it has no events.
///
/// From a calm disk a crash at any moment leaves no journal, the new one, or the old bytes with another first byte. Where a journal is
/// there already, nothing changes. The disk is calm again, unless one of its calls failed.
pub fn init_journal<D: Disk>(alloc: Global, d: &Design, disk: D) -> Ended<D>
    requires short { length (printed d.now) < 2 ^ 32 }
    ensures answer { IfOk result.answer (λ a. MakesJournal d.now (D.told disk) (D.told result.disk)
        (Rose (D.faults disk) (D.faults result.disk)) (telling_of a result.history result.settled)) }
    ensures moments { (file : List ℕ) → D.told disk ≡ Some file → Only file (D.may_leave disk)
        → AtAnyMoment D.clock D.left_since disk result.disk (LeavesNew file (printed d.now)) }
    ensures left { (file : List ℕ) → D.told disk ≡ Some file → Only file (D.may_leave disk)
        → IfSome (D.told result.disk) (LeavesNew file (printed d.now)) }
    ensures calm { IfOk result.answer (λ a. a.ending ≢ DiskFailed → IsCalm (D.told disk) (D.may_leave disk)
        → IsCalm (D.told result.disk) (D.may_leave result.disk)) }
    ensures none { (result.history ≡ []) × (result.settled ≡ 0) }
    ensures faults { D.faults disk ≤ D.faults result.disk }
{
    let Ok(Prepared { text, created }) = prepare(alloc, d) else {
        return unrun(alloc, disk, Err(AllocError));
    };
    match Wal::create(alloc, disk, &text) {
        Ok(wal) => unrun(alloc, wal.give_back(), Ok(created)),
        Err((error, disk)) => unrun(alloc, disk, not_made(alloc, error)),
    }
}

/// Recovers the journal of an accepted design: its events are done again, and what they leave unfinished is compensated and made
/// durable; where anything was, the text of the rows is put behind it. Says of it what is wanted: how many events there are then, and how
/// many transactions were compensated; or the rows.
///
/// From a calm disk a crash at any moment leaves a journal of the events that were found, or of the whole recovered history, and the disk
/// holds such a one afterwards; one behind the call leaves one of all events that are told. The disk is calm again, unless one of its calls
/// failed. What is no journal is left as it is. The recovered history is told also where memory lacks, or the disk fails, behind the
/// recovery.
pub fn recover_journal<D: Disk, P: Progress>(
    alloc: Global,
    d: &Accepted,
    wanted: Wanted,
    disk: D,
    progress: &mut P,
) -> Ended<D>
    ensures answer { IfOk result.answer (λ a. RecoversJournal (text_of wanted d.now) d.now (D.told disk) (D.told result.disk)
        (Rose (D.faults disk) (D.faults result.disk)) (telling_of a result.history result.settled)) }
    ensures recorded { TellsRecovered (text_of wanted d.now) d.now (D.told disk) (D.told result.disk)
        (Rose (D.faults disk) (D.faults result.disk)) result.history result.settled }
    ensures moments { (file : List ℕ) → D.told disk ≡ Some file → Only file (D.may_leave disk)
        → AtAnyMoment D.clock D.left_since disk result.disk (LeavesRecovery d.now file) }
    ensures left { (file : List ℕ) → D.told disk ≡ Some file → Only file (D.may_leave disk)
        → IfSome (D.told result.disk) (LeavesRecovery d.now file) }
    ensures behind { (file : List ℕ) → D.told disk ≡ Some file → Only file (D.may_leave disk)
        → (image : List ℕ) → D.may_leave result.disk image → LeavesTold d.now result.history image }
    ensures calm { IfOk result.answer (λ a. a.ending ≢ DiskFailed → IsCalm (D.told disk) (D.may_leave disk)
        → IsCalm (D.told result.disk) (D.may_leave result.disk)) }
    ensures faults { D.faults disk ≤ D.faults result.disk }
{
    match recover_sealed(alloc, d, disk, progress) {
        Ok(found) => {
            let Recovered {
                state,
                wal,
                compensated,
            } = found;
            let answer = tell_state(alloc, d.design(), wanted, &state, compensated);
            let (_, history) = state.into_parts();
            Ended {
                disk: wal.give_back(),
                settled: history.len() as u64,
                history,
                answer,
            }
        }
        Err(ended) => ended,
    }
}
