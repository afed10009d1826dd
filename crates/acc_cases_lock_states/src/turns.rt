//! Turns, crashes and events that are taken.
ghost use Rattle.std.specs.Prelude.{◌≡◌, IsTrue};
ghost use Rattle.acc_base.specs.declared.designs.Side.TheVariants.{Next};
ghost use Rattle.acc_machine.specs.Turns.{IsGoing};

use acc_base::designs::Side;
use acc_base::machines::{Event, Frame, Turn};
use acc_machine::{State, TakeError, TurnError};
use acc_store::MapStore;
use std::alloc::AllocError;
use std::fmt::Write;

/// Pushes what a turn answered.
fn push_turn(out: &mut String, turn: Turn) -> Result<(), AllocError> {
    match turn {
        Turn::Stepped(at) => write!(out, "stepped {} {}", at.ty, at.point),
        Turn::Back(at) => write!(out, "back {} {}", at.ty, at.point),
        Turn::Blocked(holder, entry) => write!(out, "blocked {holder} {entry}"),
        Turn::Turned(cause) => write!(out, "turned {cause:?}"),
        Turn::Ended => out.push_str("ended"),
    }
}

/// Pushes what the turn of a transaction answers.
pub fn push_turned(out: &mut String, state: &mut State<MapStore>, t: u64) -> Result<(), AllocError>
    ensures { state.new.design ≡ state.old.design }
{
    if !state.is_unfinished(t) {
        return out.push_str("not unfinished");
    }
    match state.turn(t) {
        Ok(turn) => push_turn(out, turn),
        Err(TurnError::Memory) => Err(AllocError),
    }
}

fn is_forward(frame: &Frame) -> bool
    ensures { IsTrue result → frame.now.side ≡ Next }
{
    match frame.side {
        Side::Next => true,
        Side::Undo => false,
    }
}

/// Whether a transaction goes forward.
fn is_going(state: &State<MapStore>, t: u64) -> bool
    ensures { IsTrue result → IsGoing t state.now.world }
{
    let _events = state.events();
    let frames = state.unfinished();
    for i in 0..frames.len() {
        let f = &frames[i];
        if f.t == t && is_forward(f) {
            return true;
        }
    }
    false
}

/// Pushes whether a crash turns a transaction.
pub fn push_crashed(out: &mut String, state: &mut State<MapStore>, t: u64) -> Result<(), AllocError>
    ensures { state.new.design ≡ state.old.design }
{
    if !is_going(state, t) {
        return out.push_str("not forward");
    }
    match state.crash(t) {
        Ok(()) => out.push_str("crashed"),
        Err(TurnError::Memory) => Err(AllocError),
    }
}

/// Pushes whether an event is taken, and how many there are then.
pub fn push_taken(
    out: &mut String,
    state: &mut State<MapStore>,
    event: &Event,
) -> Result<(), AllocError>
    ensures { state.new.design ≡ state.old.design }
{
    match state.take(event) {
        Ok(()) => write!(out, "taken {}", state.events().len()),
        Err(TakeError::Unlawful) => out.push_str("unlawful"),
        Err(TakeError::Memory) => Err(AllocError),
    }
}
