//! Calls that are played in an order, and the lines of it.
ghost use Rattle.std.specs.Prelude.{◌≡◌, length, All, IfOk};
ghost use Rattle.acc_base.specs.Runnable.{IsRunnable};
ghost use Rattle.acc_script.specs.OrderLines.{IsPlace};
ghost use Rattle.acc_player.specs.Playing.{AllFit};
ghost use Rattle.acc_play.specs.Tells.{Tells};

use crate::plains::Plain;
use acc_base::designs::Design;
use acc_base::machines::{Call, Event};
use acc_base::sequences::Seq;
use acc_plain::Machine;
use acc_player::{Board, Detail, Stop, mention_all, push_replies};
use acc_script::push_events;
use acc_store::MapStore;
use std::alloc::{AllocError, Global};

/// What is told of a play: its lines, each with a line feed, and the events of its machine, oldest first.
#[derive(Drop)]
pub struct Transcript {
    pub text: Vec<u8>,
    pub history: Seq<Event>,
}

/// Plays the calls, on the plain machine of the design, in the order: each number names a call by its place from 1, which begins
/// at its first mention and takes a turn at each. It tells a line each mention, the reply of each place in the order of the calls,
/// and how many events there were. Its one error is want of memory.
pub fn play(
    alloc: Global,
    d: &Design,
    calls: &[Call],
    order: &[u64],
) -> Result<Transcript, AllocError>
    requires runnable { IsRunnable d.now }
    requires fit { AllFit d.now calls.now }
    requires places { All (IsPlace (length calls.now)) order.now }
    ensures { IfOk result (λ t. Tells d.now calls.now order.now t.text.items t.history) }
{
    let mut player = Plain {
        machine: Machine::new(alloc, d, MapStore::new(alloc)),
        calls,
    };
    let mut board = Board::open(alloc, calls.len(), 0)?;
    match mention_all(&mut player, &mut board, d, Detail::Lines, order) {
        Ok(()) => (),
        Err(Stop::Memory) => return Err(AllocError),
        // such a player has no disk
        Err(Stop::Disk) => unreachable!(),
    }
    push_replies(&player, board.numbers.as_slice(), &mut board.text)?;
    let Plain { machine, calls: _ } = player;
    let (_, history) = machine.into_parts();
    push_events(&mut board.text, history.len() as u64)?;
    Ok(Transcript {
        text: board.text,
        history,
    })
}
