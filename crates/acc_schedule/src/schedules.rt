//! Calls that are scheduled in an order by the rules of locks, and then ended; and what is told of it.
ghost use Rattle.std.specs.Prelude.{◌≡◌, ◌≤◌, ℕ, [], length, All, IfOk};
ghost use Rattle.acc_base.specs.declared.bounds.TheConstants.{MOST_EVENTS};
ghost use Rattle.acc_base.specs.Machine.{start, unfinished};
ghost use Rattle.acc_script.specs.OrderLines.{IsPlace};
ghost use Rattle.acc_player.specs.Boards.{IsUnbegun};
ghost use Rattle.acc_player.specs.Playing.{AllFit};
ghost use Rattle.acc_schedule.specs.Schedules.{TellsSchedule};
ghost use Rattle.acc_schedule.specs.Closings.{IsClosed};

use crate::locked::Locked;
use acc_base::machines::{Call, Event};
use acc_base::sequences::Seq;
use acc_index_store::IndexStore;
use acc_lift::Accepted;
use acc_lock_rules::State;
use acc_player::{Board, Detail, Stop, all_begun, push_replies, run};
use acc_script::push_events;
use std::alloc::{AllocError, Global};

/// What is told of a schedule: its lines, each with a line feed; the events of its machine, oldest first; and whether each call has
/// begun.
#[derive(Drop)]
pub struct Scheduled {
    pub text: Vec<u8>,
    pub history: Seq<Event>,
    pub all_begun: bool,
}

/// The state before any event, over rows with the totals that the design's steps read.
fn first_state(alloc: Global, accepted: &Accepted) -> Result<State<'_, IndexStore>, AllocError>
    ensures design { IfOk result (λ state. state.design ≡ accepted.now) }
    ensures start { IfOk result (λ state. state.world ≡ start) }
{
    let Ok(rows) = IndexStore::of(alloc, accepted.design()) else {
        return Err(AllocError);
    };
    let Ok(state) = State::new(alloc, accepted, rows) else {
        return Err(AllocError);
    };
    Ok(state)
}

/// Tells the replies and how many events there were, behind the lines of a schedule that has run.
fn close(player: Locked, mut board: Board) -> Result<Scheduled, AllocError>
    requires over { unfinished player.world ≡ [] }
    requires full { (at : ℕ) → IsUnbegun at board → MOST_EVENTS ≤ length player.world.events }
    ensures { IfOk result (IsClosed player.entry board) }
{
    push_replies(&player, board.numbers.as_slice(), &mut board.text)?;
    let Locked { state, calls: _ } = player;
    push_events(&mut board.text, state.events().len() as u64)?;
    let all_begun = all_begun(board.numbers.as_slice());
    let (_, history) = state.into_parts();
    Ok(Scheduled {
        text: board.text,
        history,
        all_begun,
    })
}

/// Schedules the calls, on the machine of an accepted design, in the order: each number names a call by its place from 1, which begins
/// at its first mention and takes a turn at each. Then what is unfinished is ended, in passes in which each takes a turn; and then each
/// place that hasn't begun is begun and ended, in the order of the calls. It tells a line each mention, the reply of each place in the
/// order of the calls, and how many events there were. Its one error is want of memory.
pub fn schedule(
    alloc: Global,
    accepted: &Accepted,
    calls: &[Call],
    order: &[u64],
) -> Result<Scheduled, AllocError>
    requires fit { AllFit accepted.now calls.now }
    requires places { All (IsPlace (length calls.now)) order.now }
    ensures { IfOk result (λ s. TellsSchedule accepted.now calls.now order.now s.text.items s.history s.all_begun) }
{
    let state = first_state(alloc, accepted)?;
    let mut player = Locked { state, calls };
    let mut board = Board::open(alloc, calls.len(), 0)?;
    let d = accepted.design();
    match run(alloc, &mut player, &mut board, d, Detail::Lines, order) {
        Ok(()) => close(player, board),
        Err(Stop::Memory) => Err(AllocError),
        // such a player has no disk
        Err(Stop::Disk) => unreachable!(),
    }
}
