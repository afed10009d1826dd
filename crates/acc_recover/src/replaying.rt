// The events of a journal, done again, and its states, each compared at its place.
ghost use Rattle.std.specs.Prelude.{◌≡◌, ◌≤◌, length, take, min, max, OnOk, IfErr};
ghost use Rattle.acc_base.specs.Machine.{start};
ghost use Rattle.acc_base.specs.Lawful.{LeadLawfully};
ghost use Rattle.acc_lift.specs.Acceptance.{IsAccepted};
ghost use Rattle.acc_recover.specs.Seals.{AreFrom, AreSealsOf};
ghost use Rattle.acc_recover.specs.Replaying.{StopsTaking, StopsReplaying};

use crate::comparing::compared;
use crate::errors::RecoverError;
use acc_base::machines::Event;
use acc_machine::{State, TakeError};
use acc_progress::Progress;
use acc_store::Store;
use acc_wal::Seal;
use std::alloc::Global;

// How many events are done again from one telling of it to the next.
const TOLD_EACH: usize = 4096;

// Tells how far a replay is, each so many events.
fn tell<P: Progress>(progress: &mut P, done: usize, events: usize) {
    if done % TOLD_EACH == 0 {
        progress.replayed(done as u64, events as u64);
    }
}

// Where a state stands, from a place on and as far as there are events.
fn place_from(at: usize, place: u64, count: usize) -> usize
    requires { at ≤ count }
    ensures { result ≡ min (max place at) count }
{
    (place as usize).clamp(at, count)
}

// Takes the events from one place to another, up to the first that isn't lawful, and tells now and then how far it is.
fn take_between<S: Store, P: Progress>(
    state: &mut State<S>,
    events: &[Event],
    from: usize,
    to: usize,
    progress: &mut P,
) -> Result<(), RecoverError>
    requires order { from ≤ to }
    requires within { to ≤ length events.now }
    requires come { LeadLawfully state.old.design start (take from events.now) state.old.world }
    ensures come { OnOk result (LeadLawfully state.new.design start (take to events.now) state.new.world) }
    ensures stops { IfErr result (StopsTaking state.new.design events.now state.new.world) }
    ensures design { state.new.design ≡ state.old.design }
{
    for at in from..to {
        tell(progress, at, events.len());
        match state.take(&events[at]) {
            Ok(()) => {}
            Err(TakeError::Unlawful) => return Err(RecoverError::Unlawful(at as u64)),
            Err(TakeError::Memory) => return Err(RecoverError::Memory),
        }
    }
    Ok(())
}

/// Takes all events, up to the first that isn't lawful, and compares each state with what has come at its place. Where one differs, the
/// events behind it come nevertheless, and then the first such is told. How far it is, is told now and then, and at the end. It copies
/// the rows once for each state up to that one.
pub fn take_all<S: Store, P: Progress>(
    alloc: Global,
    state: &mut State<S>,
    events: &[Event],
    seals: &[Seal],
    progress: &mut P,
) -> Result<(), RecoverError>
    requires accepted { IsAccepted state.old.design }
    requires fresh { state.old.world ≡ start }
    ensures come { OnOk result (LeadLawfully state.new.design start events.now state.new.world) }
    ensures sealed { OnOk result (AreFrom 0 seals.now → AreSealsOf state.new.design events.now seals.now) }
    ensures stops { IfErr result (StopsReplaying state.new.design events.now seals.now state.new.world) }
    ensures design { state.new.design ≡ state.old.design }
{
    let mut first = None;
    let mut at = 0;
    for seal in seals {
        let to = place_from(at, seal.place, events.len());
        take_between(state, events, at, to, progress)?;
        at = to;
        let Ok(now) = compared(alloc, state, seal, first) else {
            return Err(RecoverError::Memory);
        };
        first = now;
    }
    take_between(state, events, at, events.len(), progress)?;
    progress.replayed(events.len() as u64, events.len() as u64);
    match first {
        Some(place) => Err(RecoverError::Differs(place)),
        None => Ok(()),
    }
}
