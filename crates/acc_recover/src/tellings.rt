// What is told of a recovery.
ghost use Rattle.std.specs.Prelude.{◌≡◌, List, length};
ghost use Rattle.acc_base.specs.declared.machines.Event.{Event};
ghost use Rattle.acc_base.specs.Machine.{World, unfinished};
ghost use Rattle.acc_base.specs.Compensation.{Recovers};
ghost use Rattle.acc_recover.specs.Compensations.{compensated_between};

use acc_machine::State;
use acc_progress::Found;
use acc_store::Store;

/// What is told of a state's recovery: how many events it has, how many transactions are unfinished in it, and how many of these recovery
/// compensates, which is each of them.
pub fn found_in<S: Store>(state: &State<S>) -> Found
    ensures events { result.events ≡ length state.now.world.events }
    ensures unfinished { result.unfinished ≡ length (unfinished state.now.world) }
    ensures compensated { (events : List Event) (last : World) → Recovers state.now.design state.now.world events last
        → result.compensated ≡ compensated_between state.now.world.transactions last.transactions }
    ensures each { result.compensated ≡ result.unfinished }
{
    let unfinished = state.unfinished().len() as u64;
    Found {
        events: state.events().len() as u64,
        unfinished,
        compensated: unfinished,
    }
}
