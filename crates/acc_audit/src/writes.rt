//! What an event writes, and whose it is.
ghost use Rattle.std.specs.Prelude.{◌≡◌, ◌<◌, ◌^◌, length, IfOk, option_copied};
ghost use Rattle.acc_formed.specs.WellFormed.{IsWellFormed};
ghost use Rattle.acc_audit.specs.Since.{frame_of, AreOfStep, AreOf, moved_by};

use acc_base::designs::{Design, Side};
use acc_base::machines::{Event, Frame};
use acc_base::sequences::Seq;
use acc_plain::Machine;
use acc_step::{StepError, effect};
use acc_store::{Store, Write};
use std::alloc::{AllocError, Global};

/// The frame with a number.
fn frame_of(frames: &[Frame], t: u64) -> Option<&Frame>
    ensures { option_copied result ≡ frame_of t frames.now }
{
    frames.iter().find(|frame| frame.t == t)
}

/// What a step of a transaction on a side writes; nothing where the transaction isn't unfinished, or has no such step.
fn step_writes<S: Store>(
    alloc: Global,
    d: &Design,
    machine: &Machine<'_, S>,
    t: u64,
    side: Side,
) -> Result<Seq<Write>, AllocError>
    requires formed { IsWellFormed d.now }
    requires design { machine.now.design ≡ d.now }
    requires few { length machine.now.world.events < 2 ^ 30 }
    ensures { IfOk result (AreOfStep d.now machine.now.world t side) }
{
    let _run = machine.events();
    let Some(frame) = frame_of(machine.unfinished(), t) else {
        return Ok(Seq::new(alloc));
    };
    match effect(alloc, d, frame, side, machine.store()) {
        Ok(effect) => Ok(effect.writes),
        Err(StepError::Range) => Ok(Seq::new(alloc)),
        Err(StepError::Memory) => Err(AllocError),
    }
}

/// What an event writes, where the machine allows it.
///
/// The cost is that of a step.
pub fn writes_of<S: Store>(
    alloc: Global,
    d: &Design,
    machine: &Machine<'_, S>,
    event: &Event,
) -> Result<Seq<Write>, AllocError>
    requires formed { IsWellFormed d.now }
    requires design { machine.now.design ≡ d.now }
    requires few { length machine.now.world.events < 2 ^ 30 }
    ensures { IfOk result (AreOf d.now machine.now.world event.now) }
{
    let _run = machine.events();
    match event {
        Event::Begin(_) | Event::Abort(_, _) => Ok(Seq::new(alloc)),
        Event::Step(t) => step_writes(alloc, d, machine, *t, Side::Next),
        Event::Undo(t) => step_writes(alloc, d, machine, *t, Side::Undo),
    }
}

/// The number of the transaction that an event began or moved, among the frames behind it.
pub fn moved_by(event: &Event, frames: &[Frame]) -> u64
    ensures { result ≡ moved_by event.now frames.now }
{
    match event {
        Event::Begin(_) => match frames.last() {
            Some(frame) => frame.t,
            None => 0,
        },
        Event::Step(t) | Event::Abort(t, _) | Event::Undo(t) => *t,
    }
}
