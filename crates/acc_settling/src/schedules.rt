//! An engine's calls that are scheduled in an order, and the lines of it.
ghost use Rattle.std.specs.Prelude.{◌≡◌, ◌≤◌, ℕ, [], length, All, false, None, Some, IfOk, IfErr, OnOk, OnErr};
ghost use Rattle.acc_base.specs.declared.bounds.TheConstants.{MOST_EVENTS};
ghost use Rattle.acc_base.specs.Machine.{unfinished};
ghost use Rattle.acc_base.specs.Plays.{Play};
ghost use Rattle.acc_script.specs.OrderLines.{IsPlace};
ghost use Rattle.acc_player.specs.Boards.{play_of, IsBoardOf, IsUnbegun};
ghost use Rattle.acc_player.specs.Ways.{PlayPrecedes, PlayPrecedesEach};
ghost use Rattle.acc_engine.specs.Sealing.{EndsSealed};
ghost use Rattle.acc_schedule.specs.Schedules.{TellsScheduleFrom};
ghost use Rattle.acc_settling.specs.Growth.{HasGrown};
ghost use Rattle.acc_settling.specs.Leaving.{LeavesEngine};
ghost use Rattle.acc_settling.specs.Openings.{opening_at, IsFresh, CanBegin};
ghost use Rattle.acc_settling.specs.Runs.{RunsOn, IsAckedButOne};
ghost use Rattle.acc_settling.specs.Schedules.{IsClosed, StopsSo, TellsStop, TellsPart, TellsPartOfSchedule};
ghost use Rattle.acc_settling.specs.Wholes.{IsAfterSchedule, IsFrontOfSchedule};

use crate::openings::opening;
use crate::replies::durable_replies;
use crate::settling::Settling;
use acc_base::designs::Design;
use acc_disk::Disk;
use acc_player::{Board, Detail, Stop, all_begun, push_replies, run};
use acc_script::push_events;
use acc_store::Store;
use std::alloc::{AllocError, Global};

/// What is told of a schedule: its lines, each with a line feed; and whether each call has begun. The events are the engine's.
#[derive(Drop)]
pub struct Scheduled {
    pub text: Vec<u8>,
    pub all_begun: bool,
}

/// Why a schedule stopped. The engine's history is as far as it came.
#[derive(Drop)]
pub enum Stopped {
    /// The disk failed. There is a line for each call: its reply, where its end is durable, or that it is unsettled.
    Disk(Vec<u8>),
    /// Memory ran out.
    Memory,
}

/// Tells the replies and how many events there were, behind the lines of a board whose engine has nothing unfinished.
fn close<S: Store, D: Disk>(player: &Settling<S, D>, board: &mut Board) -> Result<bool, AllocError>
    requires over { unfinished player.now.state ≡ [] }
    requires full { (at : ℕ) → IsUnbegun at board.old → MOST_EVENTS ≤ length player.now.state.events }
    ensures closed { IfOk result (IsClosed player.now board.old board.new) }
    ensures numbers { board.new.numbers.items ≡ board.old.numbers.items }
{
    let state = player.engine.state();
    push_replies(player, board.numbers.as_slice(), &mut board.text)?;
    push_events(&mut board.text, state.events().len() as u64)?;
    Ok(all_begun(&board.numbers))
}

/// Lets the places of a board take their turns in the order, ends them, makes the history durable, and tells of it.
fn play_out<S: Store, D: Disk>(
    alloc: Global,
    player: &mut Settling<S, D>,
    board: &mut Board,
    d: &Design,
    order: &[u64],
) -> Result<bool, Stop>
    requires design { player.old.design ≡ d.now }
    requires board { IsBoardOf player.old.calls (CanBegin player.old) board.old }
    requires places { All (IsPlace (length player.old.calls)) order.now }
    requires text { board.old.text.items ≡ [] }
    requires unfailed { player.old.failed ≡ false }
    ensures tells { IfOk result (λ begun. TellsScheduleFrom d.now player.old.calls (play_of player.old.state board.old) order.now
        board.new.text.items player.new.state.events begun) }
    ensures over { OnOk result (unfinished player.new.state ≡ []) }
    ensures settled { OnOk result (player.new.settled ≡ length player.new.state.events) }
    ensures board { IsBoardOf player.new.calls (CanBegin player.new) board.new }
    ensures done { OnOk result (LeavesEngine D.clock D.left_since D.told D.may_leave D.faults None player.old player.new) }
    ensures stops { IfErr result (λ stop. LeavesEngine D.clock D.left_since D.told D.may_leave D.faults (Some stop) player.old player.new) }
    ensures front { PlayPrecedesEach (play_of player.new.state board.new)
        (IsAfterSchedule d.now player.old.calls order.now (play_of player.old.state board.old)) }
{
    run(alloc, player, board, d, Detail::Lines, order)?;
    player.settle()?;
    Ok(close(player, board)?)
}

/// Plays a board out, and then, where the history grew, puts the text of all rows behind its last event.
fn play_and_seal<S: Store, D: Disk>(
    alloc: Global,
    player: &mut Settling<S, D>,
    board: &mut Board,
    d: &Design,
    order: &[u64],
    grew: bool,
) -> Result<bool, Stop>
    requires design { player.old.design ≡ d.now }
    requires board { IsBoardOf player.old.calls (CanBegin player.old) board.old }
    requires places { All (IsPlace (length player.old.calls)) order.now }
    requires text { board.old.text.items ≡ [] }
    requires unfailed { player.old.failed ≡ false }
    requires quiet { player.old.waiting ≡ [] }
    ensures tells { IfOk result (λ begun. TellsScheduleFrom d.now player.old.calls (play_of player.old.state board.old) order.now
        board.new.text.items player.new.state.events begun) }
    ensures settled { OnOk result (player.new.settled ≡ length player.new.state.events) }
    ensures sealed { OnOk result (HasGrown grew player.new → EndsSealed player.new) }
    ensures board { IsBoardOf player.new.calls (CanBegin player.new) board.new }
    ensures done { OnOk result (LeavesEngine D.clock D.left_since D.told D.may_leave D.faults None player.old player.new) }
    ensures stops { IfErr result (λ stop. LeavesEngine D.clock D.left_since D.told D.may_leave D.faults (Some stop) player.old player.new) }
    ensures front { PlayPrecedesEach (play_of player.new.state board.new)
        (IsAfterSchedule d.now player.old.calls order.now (play_of player.old.state board.old)) }
{
    let begun = play_out(alloc, player, board, d, order)?;
    player.seal(alloc, grew)?;
    Ok(begun)
}

/// What is told of a schedule that stopped.
pub fn told_of<S: Store, D: Disk>(
    alloc: Global,
    player: &Settling<S, D>,
    board: &Board,
    stop: Stop,
) -> Stopped
    requires board { IsBoardOf player.now.calls (CanBegin player.now) board.now }
    ensures so { StopsSo stop player.now (play_of player.now.state board.now) result }
    ensures part { (later : Play) → PlayPrecedes (play_of player.now.state board.now) later → TellsPart player.now result later }
{
    match stop {
        Stop::Memory => Stopped::Memory,
        Stop::Disk => match durable_replies(alloc, &player.engine, board.numbers.as_slice()) {
            Ok(text) => Stopped::Disk(text),
            Err(_) => Stopped::Memory,
        },
    }
}

/// Schedules an engine's calls from a board on, as `schedule` does from its opening.
pub fn schedule_from<S: Store, D: Disk>(
    alloc: Global,
    player: &mut Settling<S, D>,
    board: Board,
    d: &Design,
    order: &[u64],
    grew: bool,
) -> Result<Scheduled, Stopped>
    requires design { player.old.design ≡ d.now }
    requires board { IsBoardOf player.old.calls (CanBegin player.old) board }
    requires places { All (IsPlace (length player.old.calls)) order.now }
    requires text { board.text.items ≡ [] }
    requires unfailed { player.old.failed ≡ false }
    requires quiet { player.old.waiting ≡ [] }
    ensures tells { IfOk result (λ s. TellsScheduleFrom d.now player.old.calls (play_of player.old.state board) order.now
        s.text.items player.new.state.events s.all_begun) }
    ensures settled { OnOk result ((player.new.settled ≡ length player.new.state.events) × (player.new.failed ≡ false)) }
    ensures sealed { OnOk result (HasGrown grew player.new → EndsSealed player.new) }
    ensures stops { IfErr result (λ stop. TellsStop D.faults stop player.old player.new) }
    ensures front { IsFrontOfSchedule d.now player.old.calls order.now (play_of player.old.state board) player.new.state.events }
    ensures unsettled { IfErr result (TellsPartOfSchedule d.now player.old.calls order.now (play_of player.old.state board) player.new) }
    ensures runs { RunsOn D.clock D.left_since D.told D.may_leave D.faults player.old player.new }
{
    let mut board = board;
    match play_and_seal(alloc, player, &mut board, d, order, grew) {
        Ok(all_begun) => Ok(Scheduled {
            text: board.text,
            all_begun,
        }),
        Err(stop) => Err(told_of(alloc, player, &board, stop)),
    }
}

/// Schedules an engine's calls, none of which has begun, in the order: each number names a call by its place from 1, which begins at its
/// first mention and takes a turn at each. Then what is unfinished is ended, in passes in which each takes a turn; and then each place
/// that hasn't begun is begun and ended, in the order of the calls. Each end is made durable before the next turn.
///
/// It tells a line each mention, the reply of each place in the order of the calls, and how many events there were; and then all of
/// them are durable. Where the history grew, the text of all rows is durable behind its last event then, unless the journal has no states
/// or the text is too long; `grew` says whether it grew before the engine was made. `Disk` comes only where the disk's count of faults
/// rose in this call.
///
/// However it ends, the history goes on from the engine's; from a calm disk a crash at any moment of the call leaves a journal of some
/// first of the events, of all that were durable before at least, and one after the call, of all that are durable then, with states that
/// are the texts of the rows at their places; unless the engine has failed, the disk is calm again; and each reply but one at most is
/// durable.
///
/// However it ends, the events are the first of those of the whole schedule, which is what the same order gives where nothing fails. Where
/// the disk fails, the lines are those of the whole schedule's places: a reply of its, where that is durable, or that it is unsettled.
pub fn schedule<S: Store, D: Disk>(
    alloc: Global,
    player: &mut Settling<S, D>,
    d: &Design,
    order: &[u64],
    grew: bool,
) -> Result<Scheduled, Stopped>
    requires design { player.old.design ≡ d.now }
    requires fresh { IsFresh player.old }
    requires places { All (IsPlace (length player.old.calls)) order.now }
    ensures tells { IfOk result (λ s. TellsScheduleFrom d.now player.old.calls (opening_at player.old.state player.old.calls) order.now
        s.text.items player.new.state.events s.all_begun) }
    ensures settled { OnOk result ((player.new.settled ≡ length player.new.state.events) × (player.new.failed ≡ false)) }
    ensures sealed { OnOk result (HasGrown grew player.new → EndsSealed player.new) }
    ensures stops { IfErr result (λ stop. TellsStop D.faults stop player.old player.new) }
    ensures front { IsFrontOfSchedule d.now player.old.calls order.now (opening_at player.old.state player.old.calls)
        player.new.state.events }
    ensures unsettled { IfErr result (TellsPartOfSchedule d.now player.old.calls order.now (opening_at player.old.state player.old.calls)
        player.new) }
    ensures runs { RunsOn D.clock D.left_since D.told D.may_leave D.faults player.old player.new }
    ensures one_end { IsAckedButOne player.new }
{
    match opening(alloc, player) {
        Ok(board) => schedule_from(alloc, player, board, d, order, grew),
        Err(_) => Err(Stopped::Memory),
    }
}
