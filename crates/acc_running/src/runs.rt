//! Runs over a journal.
ghost use Rattle.std.specs.Prelude.{◌≡◌, ◌≢◌, ◌≤◌, ◌<◌, ◌^◌, length, All, IfOk};
ghost use Rattle.acc_io.specs.Causes.{Rose};
ghost use Rattle.acc_disk.specs.Crashes.{IsCalm};
ghost use Rattle.acc_engine.specs.Keeping.{CallsFit};
ghost use Rattle.acc_script.specs.BeginSizes.{begins_size};
ghost use Rattle.acc_script.specs.OrderLines.{IsPlace};
ghost use Rattle.acc_journalled.specs.declared.answers.Ending.TheVariants.{DiskFailed};
ghost use Rattle.acc_journalled.specs.Sealing.{SealsGrowth};
ghost use Rattle.acc_journalled.specs.Tellings.{telling_of};
ghost use Rattle.acc_running.specs.Engines.{IsThrough};
ghost use Rattle.acc_running.specs.Running.{RunsJournal, WorksJournal};
ghost use Rattle.acc_running.specs.Crashes.{SchedulesOver, WorksOver};

use crate::engines::{closed, say, say_rest};
use acc_base::machines::Call;
use acc_base::sequences::Seq;
use acc_crew::Crew;
use acc_disk::Disk;
use acc_engine::Engine;
use acc_journalled::{Ended, IndexStore, empty_rows, not_recovered, unrun};
use acc_lift::Accepted;
use acc_progress::Progress;
use acc_recover::{Recovered, recover};
use acc_settling::{Settling, over_journal, transactions};
use std::alloc::{AllocError, Global};

/// Recovers the journal of an accepted design, and schedules a script's calls in the order, from the recovered state on: each number of
/// the order names a call by its place from 1, which begins at its first mention and takes a turn at each. Then what is unfinished is
/// ended, and then each call that hasn't begun is begun and ended, in their order. Each end is made durable before the next turn.
///
/// It says a line each mention, the reply of each call in their order, and how many events there are then. Where a call couldn't begin,
/// since the history is full, it ends as `Unbegun`. Where the disk fails behind the recovery, it says a line each call: its reply, where
/// its end is durable, or that it is unsettled; and then `fault disk`. A journal that isn't recovered is refused as `recover_journal`
/// refuses it.
///
/// However it ends, the events are the first of those of the whole schedule, which is what the same order gives where nothing fails; and
/// where the disk fails, the lines are those of that schedule's places, as far as they are durable.
///
/// Where the history grew in this call, the journal's last state is the text of the rows behind all events then, unless the journal has no
/// states by its version or the text is too long.
///
/// From a calm disk a crash at any moment leaves a journal of the events that were found, or of the whole recovered history, or of some
/// first of the events that are handed back, with all of the recovered ones; and after the call, with all that are told as durable. Each
/// state of it is the text of the rows at its place. Each reply but one at most is among these. The disk is calm again, unless one of its
/// calls failed. What is no journal is left as it is.
pub fn schedule_journal<D: Disk, P: Progress>(
    alloc: Global,
    d: &Accepted,
    calls: Seq<Call>,
    order: &[u64],
    disk: D,
    progress: &mut P,
) -> Ended<D>
    requires fits { CallsFit d.now calls }
    requires few { begins_size calls < 2 ^ 31 }
    requires places { All (IsPlace (length calls)) order.now }
    ensures answer { IfOk result.answer (λ a. RunsJournal d.now calls order.now (D.told disk) (D.told result.disk)
        (Rose (D.faults disk) (D.faults result.disk)) (telling_of a result.history result.settled)) }
    ensures runs { SchedulesOver D.clock D.left_since D.told D.may_leave d.now calls order.now disk result.disk result.history
        result.settled }
    ensures calm { IfOk result.answer (λ a. a.ending ≢ DiskFailed → IsCalm (D.told disk) (D.may_leave disk)
        → IsCalm (D.told result.disk) (D.may_leave result.disk)) }
    ensures faults { D.faults disk ≤ D.faults result.disk }
    ensures sealed { IfOk result.answer (λ a. IsThrough a.ending
        → SealsGrowth d.now (D.told disk) (D.told result.disk) result.history) }
{
    let Some(rows) = empty_rows(alloc, d) else {
        return unrun(alloc, disk, Err(AllocError));
    };
    match recover(alloc, d, rows, disk, progress) {
        Ok(recovered) => {
            let Recovered {
                state,
                wal,
                compensated,
            } = recovered;
            let engine = over_journal(alloc, state, wal, calls);
            let mut player = Settling { engine };
            let answer = say(alloc, &mut player, d.design(), order, compensated > 0);
            closed(player, answer)
        }
        Err((error, _, disk)) => unrun(alloc, disk, not_recovered(alloc, error)),
    }
}

/// Recovers the journal of an accepted design, and lets so many workers of the crew draw a script's calls in their order and give each the
/// turns that it has, in whichever order. Then what they leave unfinished is ended, and then each call that hasn't begun is begun and
/// ended, in their order, each end made durable before the next turn.
///
/// It says the reply of each call in their order, and how many events there are then: nothing else depends on how many work. Where a call
/// couldn't begin, where the disk fails and where the journal isn't recovered, it ends as `schedule_journal` does, with the same lines.
///
/// However it ends, the events are a lawful run that begins with the recovered history, whoever took which turn; where the workers left
/// off, so many of the first calls had begun, each as the next transaction, and what stands behind is the ending of a schedule.
///
/// Where the history grew in this call, the journal's last state is the text of the rows behind all events then, as after
/// `schedule_journal`.
///
/// From a calm disk a crash leaves what one in `schedule_journal` does: a journal of some first of the events that are handed back, and
/// after the call of all that are told as durable. The disk is calm again, unless one of its calls failed.
pub fn work_journal<'a, D: Disk, C: Crew<Engine<'a, IndexStore, D>>, P: Progress>(
    alloc: Global,
    d: &'a Accepted,
    calls: Seq<Call>,
    workers: u64,
    disk: D,
    crew: &C,
    progress: &mut P,
) -> Ended<D>
    requires fits { CallsFit d.now calls }
    requires few { begins_size calls < 2 ^ 31 }
    requires ready { C.ready crew.now }
    ensures answer { IfOk result.answer (λ a. WorksJournal d.now calls (D.told disk) (D.told result.disk)
        (Rose (D.faults disk) (D.faults result.disk)) (telling_of a result.history result.settled)) }
    ensures runs { WorksOver D.clock D.left_since D.told D.may_leave d.now calls disk result.disk result.history result.settled }
    ensures calm { IfOk result.answer (λ a. a.ending ≢ DiskFailed → IsCalm (D.told disk) (D.may_leave disk)
        → IsCalm (D.told result.disk) (D.may_leave result.disk)) }
    ensures faults { D.faults disk ≤ D.faults result.disk }
    ensures sealed { IfOk result.answer (λ a. IsThrough a.ending
        → SealsGrowth d.now (D.told disk) (D.told result.disk) result.history) }
{
    let Some(rows) = empty_rows(alloc, d) else {
        return unrun(alloc, disk, Err(AllocError));
    };
    match recover(alloc, d, rows, disk, progress) {
        Ok(recovered) => {
            let Recovered {
                state,
                wal,
                compensated,
            } = recovered;
            let engine = over_journal(alloc, state, wal, calls);
            let before = transactions(&engine);
            let engine = crew.work(alloc, engine, workers);
            let mut player = Settling { engine };
            let answer = say_rest(alloc, &mut player, d.design(), before, compensated > 0);
            closed(player, answer)
        }
        Err((error, _, disk)) => unrun(alloc, disk, not_recovered(alloc, error)),
    }
}
