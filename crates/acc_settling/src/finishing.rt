//! The ending of a run whose first places workers have begun.
ghost use Rattle.std.specs.Prelude.{◌≡◌, ◌≤◌, ◌+◌, ◌-◌, ◌++◌, ℕ, [], length, map, replicate, true, false, None, Some};
ghost use Rattle.std.specs.Prelude.{IfOk, IfErr, OnOk};
ghost use Rattle.std.specs.List.{range_with_len};
ghost use Rattle.acc_base.specs.Plays.{Play};
ghost use Rattle.acc_player.specs.Boards.{play_of, IsBoardOf};
ghost use Rattle.acc_schedule.specs.Schedules.{TellsScheduleFrom};
ghost use Rattle.acc_engine.specs.Sealing.{EndsSealed};
ghost use Rattle.acc_engine.specs.Surviving.{Survives};
ghost use Rattle.acc_settling.specs.Growth.{HasGrown};
ghost use Rattle.acc_settling.specs.Openings.{CanBegin};
ghost use Rattle.acc_settling.specs.Schedules.{TellsFailed, TellsPartOfSchedule};
ghost use Rattle.acc_settling.specs.Wholes.{IsFrontOfSchedule};
ghost use Rattle.acc_settling.specs.Workers.{HasBegunFirst, IsWorked};

use crate::schedules::{Scheduled, Stopped, schedule_from, told_of};
use crate::settling::Settling;
use acc_base::designs::Design;
use acc_disk::Disk;
use acc_engine::Engine;
use acc_player::{Board, Stop};
use acc_store::Store;
use std::alloc::{AllocError, Global};

/// How many places have begun, where they are the first.
fn begun_places<S: Store, D: Disk>(engine: &Engine<S, D>) -> usize
    ensures within { result ≤ length engine.now.calls }
    ensures count { (first : HasBegunFirst engine.now) → result ≡ first.count }
{
    for at in 0..engine.places() {
        if !engine.is_begun(at as u64 + 1) {
            return at;
        }
    }
    engine.places()
}

/// The board of so many calls, of which so many have begun, the first ones, behind the transactions before.
fn worked_board(
    alloc: Global,
    calls: usize,
    count: usize,
    before: usize,
) -> Result<Board, AllocError>
    requires { count ≤ calls }
    ensures numbers { IfOk result (λ b. b.numbers.items
        ≡ map (λ (n : ℕ). Some n) (range_with_len (before + 1) count) ++ replicate (calls - count) None) }
    ensures places { IfOk result (λ b. b.places.items ≡ replicate before 0 ++ range_with_len 1 count) }
    ensures text { IfOk result (λ b. b.text.items ≡ []) }
{
    let mut board = Board::open(alloc, 0, before)?;
    for at in 0..count {
        board.places.push(at as u64 + 1)?;
        let number = board.places.len() as u64;
        board.numbers.push(Some(number))?;
    }
    board.numbers.resize(calls, None)?;
    Ok(board)
}

/// The board of an engine whose first places have begun, behind the transactions before.
fn board_of_begun<S: Store, D: Disk>(
    alloc: Global,
    player: &Settling<S, D>,
    before: usize,
) -> Result<Board, AllocError>
    requires begun { HasBegunFirst player.now }
    ensures board { IfOk result (IsBoardOf player.now.calls (CanBegin player.now)) }
    ensures worked { IfOk result (λ b. (p : Play) → IsWorked before player.now p → play_of player.now.state b ≡ p) }
    ensures text { IfOk result (λ b. b.text.items ≡ []) }
{
    let engine = &player.engine;
    let board = worked_board(alloc, engine.places(), begun_places(engine), before)?;
    Ok(board)
}

/// Ends what workers left of an engine's calls, of which the first have begun: what is unfinished is ended, in passes in which each takes
/// a turn; then each place that hasn't begun is begun and ended, in the order of the calls. Each end is made durable before the next turn.
/// `before` says how many transactions there were when the engine was made. Where the engine has failed, nothing is changed.
///
/// It tells the reply of each place in the order of the calls, and how many events there are; and then all of them are durable. Where the
/// history grew, by the workers too, the text of all rows is durable behind its last event then, unless the journal has no states or the
/// text is too long; `grew` says whether it grew before the engine was made.
///
/// However it ends, the history goes on from the engine's; from a calm disk a crash at any moment of the call leaves a journal of some
/// first of the events, of all that were durable before at least, and one after the call, of all that are durable then, with states that
/// are the texts of the rows at their places; and the events are the first of those of the whole ending, which is what comes of the play
/// that the workers left where nothing fails. Where the disk has failed, in this call or before, the lines are those of the whole ending's
/// places: a reply of its, where that is durable, or that it is unsettled.
pub fn finish<S: Store, D: Disk>(
    alloc: Global,
    player: &mut Settling<S, D>,
    d: &Design,
    before: usize,
    grew: bool,
) -> Result<Scheduled, Stopped>
    requires design { player.old.design ≡ d.now }
    requires begun { HasBegunFirst player.old }
    requires quiet { player.old.failed ≡ false → player.old.waiting ≡ [] }
    ensures tells { IfOk result (λ s. (p : Play) → IsWorked before player.old p
        → TellsScheduleFrom d.now player.old.calls p [] s.text.items player.new.state.events s.all_begun) }
    ensures settled { OnOk result ((player.new.settled ≡ length player.new.state.events) × (player.new.failed ≡ false)) }
    ensures sealed { OnOk result (HasGrown grew player.new → EndsSealed player.new) }
    ensures stops { IfErr result (TellsFailed player.new) }
    ensures front { (p : Play) → IsWorked before player.old p
        → IsFrontOfSchedule d.now player.old.calls [] p player.new.state.events }
    ensures unsettled { IfErr result (λ stop. (p : Play) → IsWorked before player.old p
        → TellsPartOfSchedule d.now player.old.calls [] p player.new stop) }
    ensures failed { player.old.failed ≡ true → player.new ≡ player.old }
    ensures survives { Survives D.clock D.left_since D.told D.may_leave D.faults player.old player.new }
{
    let board = match board_of_begun(alloc, player, before) {
        Ok(board) => board,
        Err(_) => return Err(Stopped::Memory),
    };
    if player.engine.has_failed() {
        return Err(told_of(alloc, player, &board, Stop::Disk));
    }
    schedule_from(alloc, player, board, d, &[], grew)
}
