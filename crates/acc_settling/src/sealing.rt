//! The state of the rows behind all events of a schedule.
ghost use Rattle.std.specs.Prelude.{◌≡◌, [], length, false, None, Some, IfErr, OnOk};
ghost use Rattle.acc_base.specs.Machine.{unfinished};
ghost use Rattle.acc_engine.specs.Sealing.{EndsSealed};
ghost use Rattle.acc_engine.specs.Standing.{IsSound};
ghost use Rattle.acc_settling.specs.Growth.{HasGrown};
ghost use Rattle.acc_settling.specs.Leaving.{LeavesEngine};

use crate::turns::stop_of;
use acc_disk::Disk;
use acc_engine::Engine;
use acc_player::Stop;
use acc_store::Store;
use std::alloc::Global;

/// Where the history grew, puts the text of all rows behind its last event and makes that durable too, unless the journal has no states or
/// the text is too long. `grew` says whether the history grew before the engine was made.
pub fn seal<S: Store, D: Disk>(
    alloc: Global,
    engine: &mut Engine<S, D>,
    grew: bool,
) -> Result<(), Stop>
    requires idle { unfinished engine.old.state ≡ [] }
    requires quiet { engine.old.waiting ≡ [] }
    requires unfailed { engine.old.failed ≡ false }
    requires all { engine.old.settled ≡ length engine.old.state.events }
    requires sound { IsSound D.told engine.old }
    ensures sound { IsSound D.told engine.new }
    ensures state { engine.new.state ≡ engine.old.state }
    ensures design { engine.new.design ≡ engine.old.design }
    ensures calls { engine.new.calls ≡ engine.old.calls }
    ensures begun { engine.new.begun ≡ engine.old.begun }
    ensures all { engine.new.settled ≡ length engine.new.state.events }
    ensures sealed { OnOk result (HasGrown grew engine.new → EndsSealed engine.new) }
    ensures done { OnOk result (LeavesEngine D.clock D.left_since D.told D.may_leave D.faults None engine.old engine.new) }
    ensures stops { IfErr result (λ stop. LeavesEngine D.clock D.left_since D.told D.may_leave D.faults (Some stop) engine.old engine.new) }
{
    if !grew && !engine.has_grown() {
        return Ok(());
    }
    match engine.seal_and_settle(alloc) {
        Ok(()) => Ok(()),
        Err(error) => Err(stop_of(error)),
    }
}
