//! Histories that are done again.
ghost use Rattle.std.specs.Prelude.{◌≡◌, [], IfOk, IfErr, OnOk};
ghost use Rattle.acc_base.specs.Machine.{start};
ghost use Rattle.acc_base.specs.Lawful.{LeadLawfully};
ghost use Rattle.acc_machine.specs.Replays.{StopsReplay, IsRefusedSo};

use crate::errors::{ReplayError, StateError, TakeError};
use crate::states::State;
use acc_base::machines::Event;
use acc_lift::Accepted;
use acc_progress::Progress;
use acc_store::Store;
use std::alloc::Global;

// How many events are done again from one telling of it to the next.
const TOLD_EACH: usize = 4096;

/// Tells how far a replay is, each so many events.
fn tell<P: Progress>(progress: &mut P, done: usize, events: usize) {
    if done % TOLD_EACH == 0 {
        progress.replayed(done as u64, events as u64);
    }
}

/// Takes events one after the other, up to the first that isn't lawful. Tells now and then how far it is, and at the end.
fn take_all<S: Store, P: Progress>(
    state: &mut State<S>,
    events: &[Event],
    progress: &mut P,
) -> Result<(), ReplayError>
    ensures all { OnOk result (LeadLawfully state.old.design state.old.world events.now state.new.world) }
    ensures stops { IfErr result (StopsReplay state.old.design state.old.world events.now state.new.world) }
    ensures design { state.new.design ≡ state.old.design }
{
    for at in 0..events.len() {
        tell(progress, at, events.len());
        match state.take(&events[at]) {
            Ok(()) => {}
            Err(TakeError::Unlawful) => return Err(ReplayError::Unlawful(at as u64)),
            Err(TakeError::Memory) => return Err(ReplayError::Memory),
        }
    }
    progress.replayed(events.len() as u64, events.len() as u64);
    Ok(())
}

/// The state after a history, over an empty store. After a refusal the store is handed back with the rows after some first of
/// the events: where one isn't lawful, after those before the first such. How far it is, is told now and then.
pub fn replay<'a, S: Store, P: Progress>(
    alloc: Global,
    accepted: &'a Accepted,
    store: S,
    events: &[Event],
    progress: &mut P,
) -> Result<State<'a, S>, (ReplayError, S)>
    requires empty { S.rows store ≡ [] }
    ensures design { IfOk result (λ s. s.design ≡ accepted.now) }
    ensures state { IfOk result (λ s. LeadLawfully accepted.now start events.now s.world) }
    ensures events { IfOk result (λ s. s.world.events ≡ events.now) }
    ensures refused { IfErr result (λ e. IsRefusedSo accepted.now events.now e.0 (S.rows e.1)) }
{
    let mut state = match State::new(alloc, accepted, store) {
        Ok(state) => state,
        Err((StateError::Memory, store)) => return Err((ReplayError::Memory, store)),
    };
    match take_all(&mut state, events, progress) {
        Ok(()) => Ok(state),
        Err(error) => Err((error, state.into_parts().0)),
    }
}
