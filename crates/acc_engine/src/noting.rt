//! Events that the journal is told of.
ghost use Rattle.std.specs.Prelude.{◌≡◌, ◌≤◌, ◌<◌, ◌+◌, ◌^◌, ◌++◌, [], ◌∷◌, List, length, false, IfOk};
ghost use Rattle.acc_base.specs.declared.machines.Event.{Event as TheEvent};
ghost use Rattle.acc_base.specs.declared.machines.Event.TheVariants.{Begin};
ghost use Rattle.acc_wal.specs.Items.{seal_bytes};
ghost use Rattle.acc_wal.specs.Spellings.{body, cause_number, event_bytes, Fits};
ghost use Rattle.acc_wal.specs.Settling.{Pushes};
ghost use Rattle.acc_machine.specs.Kept.{IsKept};
ghost use Rattle.acc_engine.specs.Lags.{Lags, CatchesUp, EndsInTurn, HasSmallCause};

use acc_base::machines::{Call, Cause, Event, Turn};
use acc_base::sequences::{Boxed, copied};
use acc_disk::Disk;
use acc_machine::State;
use acc_store::Store;
use acc_wal::{LONGEST_TURN, Wal};
use std::alloc::{AllocError, Global};

/// The event by which a call begins.
pub fn begin_again(alloc: Global, call: &Call) -> Result<Event, AllocError>
    ensures { IfOk result (λ event. event ≡ Begin call.now) }
{
    Ok(Event::Begin(Boxed::new(alloc, copied(call)?)?))
}

/// Puts an event at the end of the tail, where it has room.
pub fn put<D: Disk>(wal: &mut Wal<D>, event: Event)
    requires unspent { wal.old.spent ≡ false }
    requires fits { Fits event }
    requires room { length (event_bytes event) ≤ wal.old.room }
    requires short { length (body wal.old.tail) + seal_bytes wal.old.waiting + length (event_bytes event) < 2 ^ 32 }
    ensures { Pushes event wal.old wal.new }
{
    match wal.push(event) {
        Ok(()) => (),
        Err(_) => unreachable!(),
    }
}

// A cause again. What is read of it fits its type.
fn cause_again(cause: &Cause) -> Cause
    ensures same { result ≡ cause.now }
    ensures small { cause_number result < 2 ^ 32 }
{
    match cause {
        Cause::Refused(number) => Cause::Refused(*number),
        Cause::Range => Cause::Range,
        Cause::Limit => Cause::Limit,
        Cause::Asked => Cause::Asked,
        Cause::Victim => Cause::Victim,
        Cause::Crash => Cause::Crash,
    }
}

// The last event again, which is a turn. What is read of it fits its type.
fn last_turn(events: &[Event]) -> Event
    requires { EndsInTurn events.now }
    ensures same { (before : List TheEvent) (event : TheEvent) → events.now ≡ before ++ event ∷ [] → result ≡ event }
    ensures small { HasSmallCause result }
{
    match events.last() {
        Some(Event::Step(t)) => Event::Step(*t),
        Some(Event::Abort(t, cause)) => Event::Abort(*t, cause_again(cause)),
        Some(Event::Undo(t)) => Event::Undo(*t),
        Some(Event::Begin(_)) | None => unreachable!(),
    }
}

/// Puts the event of a turn into the journal, where it made one.
pub fn note<S: Store, D: Disk>(state: &State<S>, wal: &mut Wal<D>, t: u64, turn: Turn)
    requires lags { Lags t turn state.now.world.events wal.old }
    requires number { t < 2 ^ 32 }
    requires unspent { wal.old.spent ≡ false }
    requires room { LONGEST_TURN ≤ wal.old.room }
    requires short { length (body wal.old.tail) + seal_bytes wal.old.waiting + LONGEST_TURN < 2 ^ 32 }
    ensures up { CatchesUp state.now.world.events wal.old wal.new }
    ensures kept { IsKept state.now.design state.now.world }
{
    let events = state.events();
    match turn {
        Turn::Blocked(_, _) => (),
        Turn::Stepped(_) | Turn::Turned(_) | Turn::Back(_) | Turn::Ended => {
            put(wal, last_turn(events.as_slice()));
        }
    }
}
