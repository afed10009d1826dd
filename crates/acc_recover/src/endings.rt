// The events that end what is unfinished.
ghost use Rattle.std.specs.Prelude.{◌≡◌, ◌≤◌, ◌<◌, ◌+◌, ◌^◌, [], length, false, OnOk, OnErr};
ghost use Rattle.acc_base.specs.Machine.{unfinished};
ghost use Rattle.acc_base.specs.Lawful.{IsLawful};
ghost use Rattle.acc_base.specs.Compensation.{IsNext};
ghost use Rattle.acc_wal.specs.Spellings.{body, event_bytes, Fits};
ghost use Rattle.acc_wal.specs.Settling.{Pushes};
ghost use Rattle.acc_machine.specs.Kept.{IsKept};
ghost use Rattle.acc_machine.specs.Takes.{CanCome};
ghost use Rattle.acc_recover.specs.Endings.{first_forward, ending_from};
ghost use Rattle.acc_recover.specs.Recoveries.{GoesOn};
ghost use Rattle.acc_recover.specs.Steps.{InStep, TailOnly};

use acc_base::designs::Side;
use acc_base::machines::{Cause, Event, Frame};
use acc_disk::Disk;
use acc_machine::{State, TakeError, TurnError};
use acc_store::Store;
use acc_wal::{LONGEST_TURN, Wal};

// The number of the first forward frame.
fn first_forward(frames: &[Frame]) -> Option<u64>
    ensures { result ≡ first_forward frames.now }
{
    for frame in frames {
        if frame.side == Side::Next {
            return Some(frame.t);
        }
    }
    None
}

// The next event of a recovery.
fn next_ending(frames: &[Frame]) -> Option<Event>
    ensures { result ≡ ending_from (first_forward frames.now) frames.now }
{
    match first_forward(frames) {
        Some(t) => Some(Event::Abort(t, Cause::Crash)),
        None => match frames {
            [] => None,
            [first, ..] => Some(Event::Undo(first.t)),
        },
    }
}

// Does an event that is lawful.
fn take_ending<S: Store>(state: &mut State<S>, event: &Event) -> Result<(), TurnError>
    requires comes { CanCome state.old.design state.old.world event.now }
    ensures ok { OnOk result (IsLawful state.old.design state.old.world event.now state.new.world) }
    ensures err { OnErr result (state.new.world ≡ state.old.world) }
    ensures design { state.new.design ≡ state.old.design }
{
    match state.take(event) {
        Ok(()) => Ok(()),
        Err(TakeError::Memory) => Err(TurnError::Memory),
        Err(TakeError::Unlawful) => unreachable!(),
    }
}

// Puts a short event at the end of the tail, where it has room.
fn put<D: Disk>(wal: &mut Wal<D>, event: Event)
    requires unspent { wal.old.spent ≡ false }
    requires quiet { wal.old.waiting ≡ [] }
    requires fits { Fits event }
    requires brief { length (event_bytes event) ≤ LONGEST_TURN }
    requires room { LONGEST_TURN ≤ wal.old.room }
    requires short { length (body wal.old.tail) + LONGEST_TURN < 2 ^ 32 }
    ensures { Pushes event wal.old wal.new }
{
    match wal.push(event) {
        Ok(()) => (),
        Err(_) => unreachable!(),
    }
}

// Does the next event of a recovery, and puts it into the journal.
fn end_next<S: Store, D: Disk>(
    state: &mut State<S>,
    wal: &mut Wal<D>,
    event: Event,
) -> Result<(), TurnError>
    requires next { IsNext state.old.world event }
    requires kept { IsKept state.old.design state.old.world }
    requires in_step { InStep state.old.world.events wal.old }
    ensures ok { OnOk result (IsLawful state.old.design state.old.world event state.new.world) }
    ensures err { OnErr result (state.new.world ≡ state.old.world) }
    ensures design { state.new.design ≡ state.old.design }
    ensures in_step { InStep state.new.world.events wal.new }
    ensures tail { TailOnly wal.old wal.new }
{
    if wal.reserve(LONGEST_TURN).is_err() {
        return Err(TurnError::Memory);
    }
    take_ending(state, &event)?;
    put(wal, event);
    Ok(())
}

/// Ends what is unfinished: a crash for each forward transaction, lowest number first, and then undo turns until each has ended,
/// lowest number first.
pub fn end_all<S: Store, D: Disk>(state: &mut State<S>, wal: &mut Wal<D>) -> Result<(), TurnError>
    requires kept { IsKept state.old.design state.old.world }
    requires in_step { InStep state.old.world.events wal.old }
    ensures ok { OnOk result (unfinished state.new.world ≡ []) }
    ensures goes { GoesOn state.old.design state.old.world state.new.world }
    ensures kept { IsKept state.new.design state.new.world }
    ensures design { state.new.design ≡ state.old.design }
    ensures in_step { InStep state.new.world.events wal.new }
    ensures tail { TailOnly wal.old wal.new }
{
    while let Some(event) = next_ending(state.unfinished()) {
        end_next(state, wal, event)?;
    }
    Ok(())
}
