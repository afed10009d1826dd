//! The calls on the engine beside the pass of its keeper.
ghost use Rattle.std.specs.Prelude.{◌≡◌, true, [], length, Some, MatchResult, OnOk};
ghost use mathlib.Core.List.{IsPrefix};
ghost use Rattle.acc_base.specs.Machine.{world};
ghost use Rattle.acc_plain.specs.Turned.{IsUnfinished};
ghost use Rattle.acc_pass.specs.Histories.{Owns};
ghost use Rattle.acc_beside.specs.Serving.{Serves, CausesStay};
ghost use Rattle.acc_beside.specs.Calls.{Tied, Draws, Turns, Settles, Acks, Fails, May};

use crate::answers::append_last;
use crate::replies::reply_of;
use crate::runs::Run;
use acc_base::machines::{Reply, Turn};
use acc_disk::Disk;
use acc_engine::{Drawn, Engine, EngineError};
use acc_pass::{Pass, Passes, Room};
use acc_store::Store;

/// The keeper takes in a pass. What the pass may turn is unfinished now.
pub fn take_in<B: Room>(passes: &Passes<B>, keeper: Pass<B>, pass: Pass<B>) -> Pass<B>
    requires keeper { (keeper.keeps ≡ true) × (keeper.mine ≡ []) }
    ensures tied { (result.keeps ≡ true) × (result.seen ≡ keeper.seen) × (result.broken ≡ keeper.broken) × (result.mine ≡ pass.mine) }
    ensures begun { IsPrefix pass.seen keeper.seen }
    ensures broken { pass.broken ≡ true → keeper.broken ≡ true }
    ensures live { (d : _) (t : _) (w : _) → world d keeper.seen ≡ Some w → May d pass t
        → Owns result.seen result.mine t × IsUnfinished t w }
{
    pass.knows();
    let joined = passes.join(keeper, pass);
    joined.knows();
    joined
}

/// A draw, with its event.
pub fn draw_in<S: Store, D: Disk, B: Run<D>>(
    passes: &Passes<B>,
    engine: &mut Engine<S, D>,
    joined: Pass<B>,
) -> (Pass<B>, Result<Drawn, EngineError>)
    requires tied { Tied joined engine.old }
    requires serves { Serves D.clock D.left_since D.told D.may_leave D.faults B.script B.start B.engine engine.old }
    ensures tied { Tied result.0 engine.new }
    ensures serves { Serves D.clock D.left_since D.told D.may_leave D.faults B.script B.start B.engine engine.new }
    ensures causes { CausesStay B.script.design engine.old engine.new }
    ensures draws { MatchResult result.1 (Draws B.script B.start joined result.0) (Fails B.script.design joined result.0) }
{
    match engine.draw() {
        Ok(drawn) => match drawn {
            Drawn::Begun(_) => (
                append_last(passes, engine.state().events(), joined),
                Ok(drawn),
            ),
            Drawn::Empty => (joined, Ok(drawn)),
            Drawn::Full => (joined, Ok(drawn)),
            Drawn::Crowd => (joined, Ok(drawn)),
        },
        Err(error) => (joined, Err(error)),
    }
}

/// A turn of t, with its event.
pub fn turn_in<S: Store, D: Disk, B: Run<D>>(
    passes: &Passes<B>,
    engine: &mut Engine<S, D>,
    joined: Pass<B>,
    t: u64,
) -> (Pass<B>, Result<Turn, EngineError>)
    requires tied { Tied joined engine.old }
    requires serves { Serves D.clock D.left_since D.told D.may_leave D.faults B.script B.start B.engine engine.old }
    requires own { Owns joined.seen joined.mine t }
    requires live { IsUnfinished t engine.old.state }
    ensures tied { Tied result.0 engine.new }
    ensures serves { Serves D.clock D.left_since D.told D.may_leave D.faults B.script B.start B.engine engine.new }
    ensures causes { CausesStay B.script.design engine.old engine.new }
    ensures turns { MatchResult result.1 (Turns B.script.design t joined result.0) (Fails B.script.design joined result.0) }
{
    match engine.turn(t) {
        Ok(turn) => match turn {
            Turn::Blocked(_, _) => (joined, Ok(turn)),
            Turn::Stepped(_) | Turn::Turned(_) | Turn::Back(_) | Turn::Ended => (
                append_last(passes, engine.state().events(), joined),
                Ok(turn),
            ),
        },
        Err(error) => (joined, Err(error)),
    }
}

/// A settling, with its break.
pub fn settle_in<S: Store, D: Disk, B: Run<D>>(
    passes: &Passes<B>,
    engine: &mut Engine<S, D>,
    joined: Pass<B>,
) -> (Pass<B>, Result<u64, EngineError>)
    requires tied { Tied joined engine.old }
    requires serves { Serves D.clock D.left_since D.told D.may_leave D.faults B.script B.start B.engine engine.old }
    ensures tied { Tied result.0 engine.new }
    ensures serves { Serves D.clock D.left_since D.told D.may_leave D.faults B.script B.start B.engine engine.new }
    ensures causes { CausesStay B.script.design engine.old engine.new }
    ensures state { (engine.new.state ≡ engine.old.state) × (engine.new.design ≡ engine.old.design) }
    ensures all { OnOk result.1 (engine.new.settled ≡ length engine.new.state.events) }
    ensures settles { MatchResult result.1 (Settles B.script.design joined result.0) (Fails B.script.design joined result.0) }
{
    let _settled = engine.settled();
    match engine.settle() {
        Ok(count) => (joined, Ok(count)),
        Err(error) => match error {
            EngineError::Disk => (passes.mark(joined), Err(error)),
            EngineError::Failed => (joined, Err(error)),
            EngineError::Memory => (joined, Err(error)),
        },
    }
}

// A settling, and then the reply of t.
fn settled_ack<S: Store, D: Disk, B: Run<D>>(
    passes: &Passes<B>,
    engine: &mut Engine<S, D>,
    joined: Pass<B>,
    t: u64,
) -> (Pass<B>, Result<Option<Reply>, EngineError>)
    requires tied { Tied joined engine.old }
    requires serves { Serves D.clock D.left_since D.told D.may_leave D.faults B.script B.start B.engine engine.old }
    ensures tied { Tied result.0 engine.new }
    ensures serves { Serves D.clock D.left_since D.told D.may_leave D.faults B.script B.start B.engine engine.new }
    ensures causes { CausesStay B.script.design engine.old engine.new }
    ensures acks { MatchResult result.1 (Acks B.script.design t joined result.0) (Fails B.script.design joined result.0) }
{
    let (joined, settled) = settle_in(passes, engine, joined);
    match settled {
        Ok(_) => (joined, reply_of(engine, t)),
        Err(error) => (joined, Err(error)),
    }
}

/// The reply of t. It settles first, unless that reply is durable already: then it makes no call of the disk.
pub fn ack_in<S: Store, D: Disk, B: Run<D>>(
    passes: &Passes<B>,
    engine: &mut Engine<S, D>,
    joined: Pass<B>,
    t: u64,
) -> (Pass<B>, Result<Option<Reply>, EngineError>)
    requires tied { Tied joined engine.old }
    requires serves { Serves D.clock D.left_since D.told D.may_leave D.faults B.script B.start B.engine engine.old }
    ensures tied { Tied result.0 engine.new }
    ensures serves { Serves D.clock D.left_since D.told D.may_leave D.faults B.script B.start B.engine engine.new }
    ensures causes { CausesStay B.script.design engine.old engine.new }
    ensures acks { MatchResult result.1 (Acks B.script.design t joined result.0) (Fails B.script.design joined result.0) }
{
    match reply_of(engine, t) {
        Ok(None) => settled_ack(passes, engine, joined, t),
        Ok(Some(reply)) => (joined, Ok(Some(reply))),
        Err(error) => (joined, Err(error)),
    }
}
