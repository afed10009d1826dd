//! Calls of the plain machine, and an index that is kept behind each of them.
ghost use Rattle.std.specs.Prelude.{◌≡◌, ◌++◌, ◌∷◌, [], ℕ, List, true, None, Some, slice_get, IfOk, OnOk, OnErr};
ghost use Rattle.acc_base.specs.declared.machines.Event.TheVariants.{Begin};
ghost use Rattle.acc_base.specs.declared.machines.Frame.{Frame as Shown};
ghost use Rattle.acc_base.specs.Machine.{call_fits, after_event, next_number};
ghost use Rattle.acc_plain.specs.Taken.{number_in, IsTaken};
ghost use Rattle.acc_plain.specs.Turned.{IsUnfinished, IsTurned};
ghost use Rattle.acc_machine.specs.Begun.{HasRoom};
ghost use Rattle.acc_machine.specs.IndexedStates.{IsStateOf};
ghost use Rattle.acc_machine.specs.Takes.{GivesLeave};
ghost use Rattle.acc_machine.specs.Turns.{TellsHeldAt};

use crate::kept_index::KeptIndex;
use acc_base::designs::Design;
use acc_base::machines::{Call, Event, Frame, Turn};
use acc_plain::{Machine, PlainError};
use acc_store::Store;

/// Begins a call for which there is room, and keeps the index.
pub fn begin<S: Store>(
    machine: &mut Machine<S>,
    kept: &mut KeptIndex,
    d: &Design,
    call: &Call,
) -> Result<u64, PlainError>
    requires state { IsStateOf d.now machine.old.design machine.old.world kept.old.index }
    requires fits { call_fits (slice_get machine.old.design.types call.now.ty) call.now ≡ true }
    requires room { HasRoom machine.old.world }
    ensures ok { OnOk result (after_event machine.old.design machine.old.world (Begin call.now) ≡ Some machine.new.world) }
    ensures number { IfOk result (λ t. t ≡ next_number machine.old.world) }
    ensures err { OnErr result (machine.new.world ≡ machine.old.world) }
    ensures design { machine.new.design ≡ machine.old.design }
    ensures state { IsStateOf d.now machine.new.design machine.new.world kept.new.index }
{
    let t = machine.begin(call)?;
    kept.keep(d, machine.unfinished(), t);
    Ok(t)
}

/// The turn of an unfinished transaction whose step nobody blocks, and keeps the index.
pub fn turn<S: Store>(
    machine: &mut Machine<S>,
    kept: &mut KeptIndex,
    d: &Design,
    t: u64,
) -> Result<Option<Turn>, PlainError>
    requires state { IsStateOf d.now machine.old.design machine.old.world kept.old.index }
    requires unfinished { IsUnfinished t machine.old.world }
    requires free { TellsHeldAt machine.old.design machine.old.world t None }
    ensures turn { IfOk result (IsTurned machine.old.design machine.old.world machine.new.world t) }
    ensures err { OnErr result (machine.new.world ≡ machine.old.world) }
    ensures design { machine.new.design ≡ machine.old.design }
    ensures state { IsStateOf d.now machine.new.design machine.new.world kept.new.index }
{
    let turn = machine.turn(t)?;
    kept.keep(d, machine.unfinished(), t);
    Ok(turn)
}

/// The number of the last of some frames, 0 where there are none.
fn newest(frames: &[Frame]) -> u64
    ensures { (fs : List Shown) (f : Shown) → frames.now ≡ fs ++ f ∷ [] → result ≡ f.t }
{
    match frames.last() {
        Some(f) => f.t,
        None => 0,
    }
}

/// The number of an event's transaction; where one has begun by it, it is the newest of these.
fn number_of(event: &Event, frames: &[Frame]) -> u64
    ensures known { (t : ℕ) → number_in event.now ≡ Some t → result ≡ t }
    ensures newest { number_in event.now ≡ None → (fs : List Shown) (f : Shown) → frames.now ≡ fs ++ f ∷ [] → result ≡ f.t }
{
    match event {
        Event::Begin(_) => newest(frames),
        Event::Step(t) | Event::Abort(t, _) | Event::Undo(t) => *t,
    }
}

/// Does an event for which there is leave, where the plain machine allows it, and keeps the index.
pub fn take<S: Store>(
    machine: &mut Machine<S>,
    kept: &mut KeptIndex,
    d: &Design,
    event: &Event,
) -> Result<bool, PlainError>
    requires state { IsStateOf d.now machine.old.design machine.old.world kept.old.index }
    requires leave { GivesLeave machine.old.design machine.old.world event.now true }
    ensures ok { IfOk result (IsTaken machine.old.design machine.old.world machine.new.world event.now) }
    ensures err { OnErr result (machine.new.world ≡ machine.old.world) }
    ensures design { machine.new.design ≡ machine.old.design }
    ensures state { IsStateOf d.now machine.new.design machine.new.world kept.new.index }
{
    let taken = machine.take(event)?;
    let frames = machine.unfinished();
    kept.keep(d, frames, number_of(event, frames));
    Ok(taken)
}
