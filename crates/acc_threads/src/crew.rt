//! The workers of a run.
ghost use Rattle.std.specs.Prelude.{◌≡◌, false, [], nat_lt, Some, IfOk};
ghost use Rattle.acc_engine.specs.Keeping.{is_begun};
ghost use Rattle.acc_engine.specs.Standing.{IsSound};
ghost use Rattle.acc_beside.specs.Serving.{Serves};
ghost use Rattle.acc_crew.specs.Works.{IsUnworked, Works};
ghost use Rattle.acc_threads.specs.Crews.{script_of};

use acc_beside::Run;
use acc_disk::Disk;
use acc_engine::Engine;
use acc_pass::{Opened, Pass, Room};
use acc_shared::Shared;
use acc_store::Store;
use acc_workers::{Gate, work};
use std::alloc::{AllocError, Global};
use std::marker::Brand;
use std::sync::Wait;
use std::thread;
use std::thread::Threads;

/// A worker's number, and its pass, which has no transaction of its own yet.
#[derive(Drop)]
struct Job<B: Room> {
    worker: u64,
    pass: Pass<B>,
    ghost empty: { pass.mine ≡ [] },
}

// One worker's work. What it knows in the end, the engine knows too.
fn work_one<S: Store + Send, D: Disk + Send, B: Run<D> + Send + Sync, G: Gate, R: Wait>(
    rt: &R,
    shared: &Shared<S, D, B>,
    gate: &G,
    job: Job<B>,
) {
    let (_pass, _over) = work(rt, shared, gate, job.worker, job.pass);
}

// A job for each worker, and a pass that is left.
fn jobs_for<S: Store, D: Disk, B: Run<D>>(
    alloc: Global,
    shared: &Shared<S, D, B>,
    workers: u64,
    pass: Pass<B>,
) -> (Pass<B>, Result<Vec<Job<B>>, AllocError>) {
    let mut rest = pass;
    let mut jobs = Vec::new(alloc);
    for worker in 0..workers {
        let (kept, pass) = shared.split(rest);
        rest = kept;
        let job = Job {
            worker: worker + 1,
            pass,
        };
        if jobs.push(job).is_err() {
            return (rest, Err(AllocError));
        }
    }
    (rest, Ok(jobs))
}

// Lets the workers work, each in a thread of its own where one can be made. Where memory is short, some may not.
fn work_all<
    S: Store + Send,
    D: Disk + Send,
    B: Run<D> + Send + Sync,
    G: Gate + Sync,
    R: Threads + Wait + Sync,
>(rt: &R, shared: &Shared<S, D, B>, gate: &G, jobs: Vec<Job<B>>) {
    let _ = thread::map_vec(rt, jobs, &|job: Job<B>| work_one(rt, shared, gate, job));
}

fn work_named<
    'a,
    S: Store + Send,
    D: Disk + Send,
    B: Run<D> + Send + Sync,
    G: Gate + Sync,
    R: Threads + Wait + Sync,
>(
    rt: &R,
    alloc: Global,
    opened: Opened,
    engine: Engine<'a, S, D>,
    workers: u64,
    gate: &G,
) -> Engine<'a, S, D>
    requires table { opened.table.shared.table_id ≡ B.table }
    requires seen { opened.seat.me.0.now.seen ≡ B.start }
    requires engine { B.engine ≡ Some engine }
    requires start { engine.state.events ≡ B.start }
    requires script { (engine.design ≡ B.script.design) × (engine.calls ≡ B.script.calls) }
    requires places { (p : _) → is_begun engine.begun p ≡ nat_lt p B.script.places }
    requires unfailed { engine.failed ≡ false }
    ensures { Serves D.clock D.left_since D.told D.may_leave D.faults B.script B.start B.engine result }
{
    let (passes, keeper) = opened.named::<B>();
    let (shared, pass) = Shared::new(passes, keeper, engine);
    let (pass, jobs) = jobs_for(alloc, &shared, workers, pass);
    if let Ok(jobs) = jobs {
        work_all(rt, &shared, gate, jobs);
    }
    shared.finish(pass)
}

// A table for an engine's history. Where none of the engine's places is begun, it serves as it is.
fn table_for<S: Store, D: Disk>(alloc: Global, engine: &Engine<S, D>) -> Result<Opened, AllocError>
    requires fresh { engine.now.begun ≡ [] }
    ensures seen { IfOk result (λ opened. opened.seat.me.0.now.seen ≡ engine.now.state.events) }
    ensures serves { Serves D.clock D.left_since D.told D.may_leave D.faults (script_of engine.now) engine.now.state.events
        (Some engine.now) engine.now }
{
    Opened::new(alloc, engine.state().events())
}

// Lets the workers work, where there is memory for their table.
fn work_if_room<'a, S: Store + Send, D: Disk + Send, G: Gate + Sync, R: Threads + Wait + Sync>(
    rt: &R,
    alloc: Global,
    engine: Engine<'a, S, D>,
    workers: u64,
    gate: &G,
) -> Engine<'a, S, D>
    requires { IsUnworked engine }
    ensures { Serves D.clock D.left_since D.told D.may_leave D.faults (script_of engine.entry) engine.entry.state.events
        (Some engine.entry) result }
{
    match table_for(alloc, &engine) {
        Ok(opened) => work_named::<S, D, Brand, G, R>(rt, alloc, opened, engine, workers, gate),
        Err(_) => engine,
    }
}

/// Lets so many workers draw and turn an engine's calls, each in a thread of its own where one can be made, until no place is left or
/// the run is halted. What they leave unbegun or unfinished, and what isn't durable then, is for the caller. Where memory is short they
/// may do nothing; where no thread can be made they work one behind another, each until no place is left.
pub fn work_in_threads<
    'a,
    S: Store + Send,
    D: Disk + Send,
    G: Gate + Sync,
    R: Threads + Wait + Sync,
>(rt: &R, alloc: Global, engine: Engine<'a, S, D>, workers: u64, gate: &G) -> Engine<'a, S, D>
    requires { IsUnworked engine }
    ensures sound { IsSound D.told result }
    ensures works { Works D.clock D.left_since D.told D.may_leave D.faults engine.entry result }
{
    let engine = work_if_room(rt, alloc, engine, workers, gate);
    engine.standing();
    engine
}
