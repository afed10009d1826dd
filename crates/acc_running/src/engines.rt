//! Runs of an engine.
ghost use Rattle.std.specs.Prelude.{◌≡◌, [], true, false, length, All, IfOk};
ghost use Rattle.acc_base.specs.Plays.{Play};
ghost use Rattle.acc_script.specs.OrderLines.{IsPlace};
ghost use Rattle.acc_engine.specs.Standing.{IsSound};
ghost use Rattle.acc_engine.specs.Surviving.{Survives};
ghost use Rattle.acc_settling.specs.Openings.{opening_at, IsFresh};
ghost use Rattle.acc_settling.specs.Runs.{RunsOn, IsAckedButOne};
ghost use Rattle.acc_settling.specs.Wholes.{IsFrontOfSchedule};
ghost use Rattle.acc_settling.specs.Workers.{HasBegunFirst, IsWorked};
ghost use Rattle.acc_running.specs.Engines.{ending_at, IsWithFault, SaysTold, SaysRun, HandsOver};

use acc_base::designs::Design;
use acc_disk::Disk;
use acc_journalled::{Answer, Ended, Ending};
use acc_settling::{Scheduled, Settling, Stopped, finish, schedule};
use acc_store::Store;
use std::alloc::{AllocError, Global};

// How a schedule ends of which each call has begun, or not.
fn ending_at(all_begun: bool) -> Ending
    ensures { result ≡ ending_at all_begun }
{
    if all_begun {
        Ending::Done
    } else {
        Ending::Unbegun
    }
}

// The lines of the places, and behind them the fault.
fn with_fault(text: Vec<u8>) -> Result<Answer, AllocError>
    ensures { IfOk result (IsWithFault text.items) }
{
    let mut text = text;
    text.extend_from_slice(b"fault disk\n")?;
    Ok(Answer {
        ending: Ending::DiskFailed,
        text,
    })
}

// What is said of a schedule, or where it stopped.
fn answer_of(told: Result<Scheduled, Stopped>) -> Result<Answer, AllocError>
    ensures { IfOk result (SaysTold told) }
{
    match told {
        Ok(Scheduled { text, all_begun }) => Ok(Answer {
            ending: ending_at(all_begun),
            text,
        }),
        Err(Stopped::Disk(text)) => with_fault(text),
        Err(Stopped::Memory) => Err(AllocError),
    }
}

/// Schedules an engine's calls, none of which has begun, in the order, and says what came of it. `grew` says whether the history grew
/// before the engine was made.
pub fn say<S: Store, D: Disk>(
    alloc: Global,
    player: &mut Settling<S, D>,
    d: &Design,
    order: &[u64],
    grew: bool,
) -> Result<Answer, AllocError>
    requires design { player.old.design ≡ d.now }
    requires fresh { IsFresh player.old }
    requires places { All (IsPlace (length player.old.calls)) order.now }
    ensures says { IfOk result (SaysRun d.now player.old.calls order.now (opening_at player.old.state player.old.calls) grew player.new) }
    ensures front { IsFrontOfSchedule d.now player.old.calls order.now (opening_at player.old.state player.old.calls)
        player.new.state.events }
    ensures runs { RunsOn D.clock D.left_since D.told D.may_leave D.faults player.old player.new }
    ensures one_end { IsAckedButOne player.new }
{
    let told = schedule(alloc, player, d, order, grew);
    answer_of(told)
}

/// Ends what workers left of an engine's calls, of which the first have begun behind so many transactions, and says what came of all.
/// `grew` says whether the history grew before the engine was made.
pub fn say_rest<S: Store, D: Disk>(
    alloc: Global,
    player: &mut Settling<S, D>,
    d: &Design,
    before: usize,
    grew: bool,
) -> Result<Answer, AllocError>
    requires design { player.old.design ≡ d.now }
    requires begun { HasBegunFirst player.old }
    requires quiet { player.old.failed ≡ false → player.old.waiting ≡ [] }
    ensures says { IfOk result (λ s. (p : Play) → IsWorked before player.old p → SaysRun d.now player.old.calls [] p grew player.new s) }
    ensures front { (p : Play) → IsWorked before player.old p
        → IsFrontOfSchedule d.now player.old.calls [] p player.new.state.events }
    ensures failed { player.old.failed ≡ true → player.new ≡ player.old }
    ensures survives { Survives D.clock D.left_since D.told D.may_leave D.faults player.old player.new }
{
    let told = finish(alloc, player, d, before, grew);
    answer_of(told)
}

/// Ends a run: the disk, the events and how many of them are durable.
pub fn closed<S: Store + Drop, D: Disk>(
    player: Settling<S, D>,
    answer: Result<Answer, AllocError>,
) -> Ended<D>
    ensures sound { IsSound D.told player.entry }
    ensures hands { HandsOver player.entry result.disk result.history result.settled }
    ensures answer { result.answer ≡ answer }
{
    let Settling { engine } = player;
    let settled = engine.settled() as u64;
    let (state, wal) = engine.give_back();
    let (_, history) = state.into_parts();
    Ended {
        disk: wal.give_back(),
        history,
        settled,
        answer,
    }
}
