//! Begins and turns of an engine, and its settlings: one behind each end.
ghost use Rattle.std.specs.Prelude.{◌≡◌, ◌≢◌, ◌-◌, ℕ, length, false, None, Some, IfOk, IfErr, OnOk, OnErr};
ghost use Rattle.acc_plain.specs.Turned.{IsUnfinished};
ghost use Rattle.acc_machine.specs.Turns.{IsTurn};
ghost use Rattle.acc_script.specs.OrderLines.{IsPlace};
ghost use Rattle.acc_engine.specs.Standing.{IsSound};
ghost use Rattle.acc_player.specs.declared.stops.Stop.TheVariants.{Memory};
ghost use Rattle.acc_player.specs.Players.{BeginsAt, CanStart, IsNoBegin, MayTurn};
ghost use Rattle.acc_lock_rules.specs.LockRules.{with_locks};
ghost use Rattle.acc_settling.specs.Leaving.{number_in, stop_of, LeavesEngine};
ghost use Rattle.acc_settling.specs.Openings.{CanBegin};
ghost use Rattle.acc_settling.specs.Runs.{IsAcked, IsAckedButOne};

use acc_base::machines::Turn;
use acc_disk::Disk;
use acc_engine::{Drawn, Engine, EngineError};
use acc_player::Stop;
use acc_store::Store;

/// Why a player stops where a call of its engine isn't done.
pub fn stop_of(error: EngineError) -> Stop
    ensures { result ≡ stop_of error }
{
    match error {
        EngineError::Disk | EngineError::Failed => Stop::Disk,
        EngineError::Memory => Stop::Memory,
    }
}

// The number of a place that began.
fn number_in(drawn: Drawn) -> Option<u64>
    ensures { result ≡ number_in drawn }
{
    match drawn {
        Drawn::Begun(t) => Some(t),
        Drawn::Empty | Drawn::Full | Drawn::Crowd => None,
    }
}

/// Begins a place that hasn't begun, unless the engine is full. Want of memory is told only where it could begin.
pub fn begin<S: Store, D: Disk>(engine: &mut Engine<S, D>, place: u64) -> Result<Option<u64>, Stop>
    requires unfailed { engine.old.failed ≡ false }
    requires sound { IsSound D.told engine.old }
    requires place { IsPlace (length engine.old.calls) place }
    requires can { CanBegin engine.old (place - 1) }
    ensures sound { IsSound D.told engine.new }
    ensures begins { IfOk result (λ found. BeginsAt (with_locks engine.old.design) engine.old.calls place engine.old.state found
        engine.new.state) }
    ensures err { OnErr result (engine.new.state ≡ engine.old.state) }
    ensures room { IfErr result (λ stop. stop ≡ Memory → CanStart (with_locks engine.old.design) engine.old.calls place
        engine.old.state) }
    ensures design { engine.new.design ≡ engine.old.design }
    ensures calls { engine.new.calls ≡ engine.old.calls }
    ensures others { (at : ℕ) → at ≢ place - 1 → CanBegin engine.old at → CanBegin engine.new at }
    ensures unmoved { IsNoBegin result → (at : ℕ) → CanBegin engine.old at → CanBegin engine.new at }
    ensures done { OnOk result (LeavesEngine D.clock D.left_since D.told D.may_leave D.faults None engine.old engine.new) }
    ensures stops { IfErr result (λ stop. LeavesEngine D.clock D.left_since D.told D.may_leave D.faults (Some stop) engine.old engine.new) }
{
    match engine.begin_at(place) {
        Ok(drawn) => Ok(number_in(drawn)),
        Err(error) => Err(stop_of(error)),
    }
}

/// Makes the history durable.
pub fn settle<S: Store, D: Disk>(engine: &mut Engine<S, D>) -> Result<(), Stop>
    requires unfailed { engine.old.failed ≡ false }
    requires sound { IsSound D.told engine.old }
    ensures sound { IsSound D.told engine.new }
    ensures state { engine.new.state ≡ engine.old.state }
    ensures design { engine.new.design ≡ engine.old.design }
    ensures calls { engine.new.calls ≡ engine.old.calls }
    ensures begun { engine.new.begun ≡ engine.old.begun }
    ensures all { OnOk result ((engine.new.settled ≡ length engine.new.state.events) × IsAcked engine.new) }
    ensures one { IsAckedButOne engine.old → IsAckedButOne engine.new }
    ensures done { OnOk result (LeavesEngine D.clock D.left_since D.told D.may_leave D.faults None engine.old engine.new) }
    ensures stops { IfErr result (λ stop. LeavesEngine D.clock D.left_since D.told D.may_leave D.faults (Some stop) engine.old engine.new) }
{
    match engine.settle() {
        Ok(_) => Ok(()),
        Err(error) => Err(stop_of(error)),
    }
}

/// One turn of an unfinished transaction. Where it ends, the history is made durable. The state that an error leaves is that before the
/// turn or after it.
pub fn take<S: Store, D: Disk>(engine: &mut Engine<S, D>, t: u64) -> Result<Turn, Stop>
    requires unfinished { IsUnfinished t engine.old.state }
    requires unfailed { engine.old.failed ≡ false }
    requires sound { IsSound D.told engine.old }
    ensures sound { IsSound D.told engine.new }
    ensures turn { IfOk result (IsTurn engine.old.design engine.old.state engine.new.state t) }
    ensures err { OnErr result (MayTurn (with_locks engine.old.design) engine.old.state t engine.new.state) }
    ensures design { engine.new.design ≡ engine.old.design }
    ensures calls { engine.new.calls ≡ engine.old.calls }
    ensures begun { engine.new.begun ≡ engine.old.begun }
    ensures done { OnOk result (LeavesEngine D.clock D.left_since D.told D.may_leave D.faults None engine.old engine.new) }
    ensures stops { IfErr result (λ stop. LeavesEngine D.clock D.left_since D.told D.may_leave D.faults (Some stop) engine.old engine.new) }
{
    let turn = match engine.turn(t) {
        Ok(turn) => turn,
        Err(error) => return Err(stop_of(error)),
    };
    match turn {
        Turn::Ended => {
            settle(engine)?;
            Ok(turn)
        }
        Turn::Stepped(_) | Turn::Blocked(_, _) | Turn::Turned(_) | Turn::Back(_) => Ok(turn),
    }
}
