//! Engines over a journal of which all is durable.
ghost use Rattle.std.specs.Prelude.{◌≡◌, ◌<◌, ◌^◌, [], length, false};
ghost use Rattle.acc_disk.specs.Crashes.{IsCalm};
ghost use Rattle.acc_recover.specs.Seals.{AreSealsOf};
ghost use Rattle.acc_script.specs.BeginSizes.{begins_size};
ghost use Rattle.acc_engine.specs.Keeping.{CallsFit};
ghost use Rattle.acc_engine.specs.Ready.{IsReady};
ghost use Rattle.acc_engine.specs.Standing.{IsSound};
ghost use Rattle.acc_settling.specs.Openings.{IsFresh};

use acc_base::machines::Call;
use acc_base::sequences::Seq;
use acc_disk::Disk;
use acc_engine::Engine;
use acc_machine::State;
use acc_store::Store;
use acc_wal::Wal;
use std::alloc::Global;

/// An engine over a state and its settled journal, for these calls, which `schedule` takes: none has begun. Where the disk is calm, and
/// each of the journal's states is the text of the rows at its place, what is said of crashes holds from here on. It takes no memory.
pub fn over_journal<'a, S: Store, D: Disk>(
    alloc: Global,
    state: State<'a, S>,
    wal: Wal<D>,
    calls: Seq<Call>,
) -> Engine<'a, S, D>
    requires same { wal.durable ≡ state.world.events }
    requires settled { wal.tail ≡ [] }
    requires quiet { wal.waiting ≡ [] }
    requires unspent { wal.spent ≡ false }
    requires fits { CallsFit state.design calls }
    requires few { begins_size calls < 2 ^ 31 }
    ensures sound { IsSound D.told result }
    ensures fresh { IsFresh result }
    ensures state { (result.state ≡ state.entry.world) × (result.design ≡ state.entry.design) }
    ensures journal { (result.disk ≡ wal.disk) × (result.base ≡ wal.base) }
    ensures states { (result.version ≡ wal.version) × (result.seals ≡ wal.seals) }
    ensures found { result.found ≡ length result.state.events }
    ensures calls { result.calls ≡ calls }
    ensures ready { IsCalm (D.told wal.disk) (D.may_leave wal.disk) → AreSealsOf state.entry.design state.entry.world.events wal.seals
        → IsReady D.told D.may_leave result }
{
    Engine::new(alloc, state, wal, calls)
}
