//! The calls of an engine that threads share, made one after the other by who holds two passes.
ghost use Rattle.std.specs.Prelude.{◌≡◌, false, [], nat_lt, Some};
ghost use Rattle.acc_engine.specs.Keeping.{is_begun};
ghost use Rattle.acc_engine.specs.Standing.{IsSound};
ghost use Rattle.acc_crew.specs.Works.{IsUnworked, Works};
ghost use Rattle.acc_beside.specs.Calls.{May};
ghost use Rattle.acc_beside.specs.Serving.{Serves};

use acc_base::machines::{Reply, Turn};
use acc_beside::Run;
use acc_cases_engine_runs::answers::{push_drawn, push_engine_error, push_settled, push_turn};
use acc_cases_words::events::push_reply;
use acc_crew::{Alone, Crew};
use acc_disk::Disk;
use acc_engine::{Drawn, Engine, EngineError};
use acc_pass::{Opened, Pass, Room};
use acc_shared::Shared;
use acc_store::Store;
use acc_workers::{Given, Turner, Why};
use std::alloc::{AllocError, Global};
use std::fmt::Write;
use std::marker::Brand;
use std::sync::Wait;

/// What the two draws answered, then the calls for the transaction that began first, in their order, and a worker's draw behind a halt.
#[derive(Drop)]
struct Answers {
    first: Result<Drawn, EngineError>,
    second: Result<Drawn, EngineError>,
    calls: Option<Calls>,
    given: Given,
}

/// What `ack`, `turn`, `ack` and `settle` answered.
#[derive(Drop)]
struct Calls {
    before: Result<Option<Reply>, EngineError>,
    turned: Result<Turn, EngineError>,
    after: Result<Option<Reply>, EngineError>,
    settled: Result<u64, EngineError>,
}

/// Pushes what an `ack` answered.
fn push_acked(
    out: &mut String,
    acked: &Result<Option<Reply>, EngineError>,
) -> Result<(), AllocError> {
    match acked {
        Ok(reply) => push_reply(out, reply.as_ref()),
        Err(error) => push_engine_error(out, *error),
    }
}

/// Pushes what a `turn` answered.
fn push_turned(out: &mut String, turned: Result<Turn, EngineError>) -> Result<(), AllocError> {
    match turned {
        Ok(turn) => push_turn(out, turn),
        Err(error) => push_engine_error(out, error),
    }
}

/// Pushes what the calls for one transaction answered.
fn push_calls(out: &mut String, calls: &Calls) -> Result<(), AllocError> {
    out.push_str("; ack ")?;
    push_acked(out, &calls.before)?;
    out.push_str("; turn ")?;
    push_turned(out, calls.turned)?;
    out.push_str("; ack ")?;
    push_acked(out, &calls.after)?;
    out.push_str("; ")?;
    push_settled(out, calls.settled)
}

/// Pushes what a worker's draw gave.
fn push_given(out: &mut String, given: Given) -> Result<(), AllocError> {
    match given {
        Given::Begun(t) => write!(out, "begun {t}"),
        Given::NoMore => out.push_str("no more"),
        Given::Halt(why) => write!(out, "halt {why:?}"),
    }
}

/// What all of them answered, as a line.
fn told(alloc: Global, answers: &Answers) -> Result<String, AllocError> {
    let mut out = String::new(alloc);
    out.push_str("draw ")?;
    push_drawn(&mut out, answers.first)?;
    out.push_str("; draw ")?;
    push_drawn(&mut out, answers.second)?;
    if let Some(calls) = &answers.calls {
        push_calls(&mut out, calls)?;
    }
    out.push_str("; draw ")?;
    push_given(&mut out, answers.given)?;
    Ok(out)
}

/// Asks for the reply of a transaction, gives it a turn, asks for the reply again, and makes the history durable.
fn call_for<'a, S: Store, D: Disk, B: Run<D>, W: Wait>(
    waits: &W,
    shared: &Shared<'a, S, D, B>,
    pass: Pass<B>,
    t: u64,
) -> (Pass<B>, Calls)
    requires may { May B.script.design pass t }
{
    pass.knows();
    let (pass, before) = shared.ack(waits, pass, t);
    pass.knows();
    let (pass, turned) = shared.turn(waits, pass, t);
    let (pass, after) = shared.ack(waits, pass, t);
    let (pass, settled) = shared.settle(waits, pass);
    let calls = Calls {
        before,
        turned,
        after,
        settled,
    };
    (pass, calls)
}

/// How many events the calls made durable, 0 where they made none.
fn settled_by(calls: &Option<Calls>) -> u64 {
    match calls {
        Some(calls) => calls.settled.unwrap_or(0),
        None => 0,
    }
}

/// Pauses while there are more events than there can be, which keeps nobody; halts the run; pauses while there are as many as were made
/// durable, which a halted run keeps nobody in; and draws as a worker does.
fn halt<'a, S: Store + Send, D: Disk + Send, B: Run<D> + Send + Sync, W: Wait>(
    waits: &W,
    shared: &Shared<'a, S, D, B>,
    pass: Pass<B>,
    settled: u64,
) -> (Pass<B>, Given) {
    let pass = shared.pause(waits, pass, u64::MAX);
    let pass = shared.halt(waits, pass, Why::Memory);
    let pass = shared.pause(waits, pass, settled);
    Turner::draw(shared, waits, pass)
}

/// Splits the pass, draws by each of the two, lets them meet, makes the calls for the transaction that began first, joins them, and halts
/// the run.
fn call_each<'a, S: Store + Send, D: Disk + Send, B: Run<D> + Send + Sync, W: Wait>(
    waits: &W,
    shared: &Shared<'a, S, D, B>,
    pass: Pass<B>,
) -> (Pass<B>, Answers) {
    let (one, other) = shared.split(pass);
    one.knows();
    let (one, first) = shared.draw(waits, one);
    one.knows();
    let (other, second) = shared.draw(waits, other);
    let (one, other) = shared.meet(one, other);
    one.knows();
    let (one, calls) = match first {
        Ok(drawn) => match drawn {
            Drawn::Begun(t) => {
                let (one, calls) = call_for(waits, shared, one, t);
                (one, Some(calls))
            }
            Drawn::Empty | Drawn::Full | Drawn::Crowd => (one, None),
        },
        Err(_) => (one, None),
    };
    let pass = shared.join(one, other);
    let (pass, given) = halt(waits, shared, pass, settled_by(&calls));
    let answers = Answers {
        first,
        second,
        calls,
        given,
    };
    (pass, answers)
}

/// Shares an engine, makes the calls, and tells what they answered.
fn share<
    'a,
    S: Store + Send,
    D: Disk + Send,
    B: Run<D> + Send + Sync,
    R: Print + AllocGlobal,
    W: Wait,
>(rt: &R, waits: &W, opened: Opened, engine: Engine<'a, S, D>) -> Engine<'a, S, D>
    requires table { opened.table.shared.table_id ≡ B.table }
    requires seen { opened.seat.me.0.now.seen ≡ B.start }
    requires engine { B.engine ≡ Some engine }
    requires start { engine.state.events ≡ B.start }
    requires script { (engine.design ≡ B.script.design) × (engine.calls ≡ B.script.calls) }
    requires places { (p : _) → is_begun engine.begun p ≡ nat_lt p B.script.places }
    requires unfailed { engine.failed ≡ false }
    ensures { Serves D.clock D.left_since D.told D.may_leave D.faults B.script B.start B.engine result }
{
    let (passes, keeper) = opened.named::<B>();
    let (shared, pass) = Shared::new(passes, keeper, engine);
    let (pass, answers) = call_each(waits, &shared, pass);
    // what isn't told is missed where the lines are compared
    let _ = match told(rt.alloc(), &answers) {
        Ok(line) => rt.println(line.as_str()),
        Err(AllocError) => rt.println("memory"),
    };
    shared.finish(pass)
}

/// Works an engine by these calls; what they leave is for the caller.
pub fn work_by_calls<'a, S: Store + Send, D: Disk + Send, R: Print + AllocGlobal, W: Wait>(
    rt: &R,
    waits: &W,
    alloc: Global,
    engine: Engine<'a, S, D>,
) -> Engine<'a, S, D>
    requires { IsUnworked engine }
    ensures sound { IsSound D.told result }
    ensures works { Works D.clock D.left_since D.told D.may_leave D.faults engine.entry result }
{
    match Opened::new(alloc, engine.state().events()) {
        Ok(opened) => {
            let engine = share::<S, D, Brand, R, W>(rt, waits, opened, engine);
            engine.standing();
            engine
        }
        Err(_) => Alone.work(alloc, engine, 1),
    }
}
