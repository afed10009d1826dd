//! The engine under its lock.
ghost use Rattle.std.specs.Prelude.{◌≡◌, ◌<◌, ◌++◌, ◌||◌, true, false, [], length, nat_lt, Some, MatchOption, MatchResult};
ghost use mathlib.Core.List.{IsPrefix};
ghost use Rattle.acc_engine.specs.Keeping.{is_begun};
ghost use Rattle.acc_pass.specs.Histories.{longer};
ghost use Rattle.acc_pass.specs.Rules.{known, Told};
ghost use Rattle.acc_beside.specs.Serving.{Serves};
ghost use Rattle.acc_workers.specs.Turns.{Same, Keeps};
ghost use Rattle.acc_beside.specs.Calls.{Draws, Turns, Settles, Acks, Fails, Looks, Shows, AllBegun, May};

use crate::locked::Locked;
use acc_base::machines::{Reply, Turn};
use acc_beside::Run;
use acc_disk::Disk;
use acc_engine::{Drawn, Engine, EngineError};
use acc_pass::{Pass, Passes, Room};
use acc_store::Store;
use acc_workers::{Given, Turner, Went, Why};
use std::sync::atomic::{AtomicU64, Ordering};
use std::sync::{Condvar, Mutex, MutexGuard, Wait};

/// An engine that threads share. Each call takes the caller's pass and gives it back.
///
/// One settling makes the ends of several transactions durable. Who wants its transaction's end durable lets those go first who are
/// queued for a draw or a turn, since their transactions may end too, and waits on `settled`; but not once the run is halted, once its
/// end is durable, or once somebody is to settle (`is_due`). Nobody waits there for ever:
/// - Who begins to wait has the lock and finds somebody queued. Each who is queued gets the lock later, and behind its call looks, still
///   under the lock, whether one of those who wait is to settle. It is so where nobody is queued any more, and behind `GROUP_TURNS`
///   calls in any case. So after finitely many calls one of those who sleep is woken, and settles: nothing keeps it from that.
/// - Who settles wakes all who sleep, behind its settling, and their ends are durable; where the settling failed, the run is halted.
/// - If who was woken finds its end durable, another has settled since it began to wait, and that one wakes all who sleep. One that
///   began to sleep after that found somebody queued then.
/// - A halt wakes all who sleep.
/// A thread that is alone never waits there, since nobody is queued.
pub struct Shared<'a, S: Store, D: Disk, B: Run<D>> {
    passes: Passes<B>,
    lock: Mutex<Locked<'a, S, D, B>>,
    // told of each draw, turn and halt
    moved: Condvar,
    // told of each settling and halt, and when one of those who wait there is to settle
    settled: Condvar,
    // how many wait for the lock to draw or to turn
    queued: AtomicU64,
}

impl<'a, S: Store, D: Disk, B: Run<D>> Shared<'a, S, D, B> {
    /// Shares an engine, and gives the first pass. It takes no memory.
    pub fn new(passes: Passes<B>, keeper: Pass<B>, engine: Engine<'a, S, D>) -> (Self, Pass<B>)
        requires keeper { keeper ≡ known true false B.start [] }
        requires engine { B.engine ≡ Some engine }
        requires start { engine.state.events ≡ B.start }
        requires script { (engine.design ≡ B.script.design) × (engine.calls ≡ B.script.calls) }
        requires places { (p : _) → is_begun engine.begun p ≡ nat_lt p B.script.places }
        requires unfailed { engine.failed ≡ false }
        ensures { result.1 ≡ known false false B.start [] }
    {
        let _state = engine.state();
        let _settled = engine.settled();
        let (pass, keeper) = passes.split(keeper);
        let shared = Shared {
            passes,
            lock: Mutex::new(Locked::new(engine, keeper)),
            moved: Condvar::new(),
            settled: Condvar::new(),
            queued: AtomicU64::new(0),
        };
        (shared, pass)
    }

    // Takes the lock, for a draw or a turn.
    fn enter<R: Wait>(&self, rt: &R) -> MutexGuard<'_, Locked<'a, S, D, B>> {
        self.queued.fetch_add(1, Ordering::SeqCst);
        let inside = self.lock.lock(rt);
        self.queued.fetch_sub(1, Ordering::SeqCst);
        inside
    }

    // Lets go of the lock behind a draw or a turn.
    fn step_out(&self, mut inside: MutexGuard<'_, Locked<'a, S, D, B>>) {
        let is_due = inside.moved(self.queued.load(Ordering::SeqCst));
        drop(inside);
        if is_due {
            self.settled.notify_one();
        }
        self.moved.notify_all();
    }

    // Takes the lock, to make the end of t durable, where that isn't done meanwhile.
    fn gather<R: Wait>(&self, rt: &R, t: u64) -> MutexGuard<'_, Locked<'a, S, D, B>> {
        let mut inside = self.lock.lock(rt);
        inside.join();
        let mut inside = self.settled.wait_while(rt, inside, |inside| {
            self.queued.load(Ordering::SeqCst) > 0 && inside.may_wait(t)
        });
        inside.leave();
        inside
    }

    /// Begins the next place.
    pub fn draw<R: Wait>(&self, rt: &R, pass: Pass<B>) -> (Pass<B>, Result<Drawn, EngineError>)
        ensures keeps { result.0.keeps ≡ false }
        ensures draws { MatchResult result.1 (Draws B.script B.start pass result.0) (Fails B.script.design pass result.0) }
    {
        let mut inside = self.enter(rt);
        let answer = inside.draw(&self.passes, pass);
        self.step_out(inside);
        answer
    }

    /// One turn of a transaction of the pass's own that hasn't ended.
    pub fn turn<R: Wait>(
        &self,
        rt: &R,
        pass: Pass<B>,
        t: u64,
    ) -> (Pass<B>, Result<Turn, EngineError>)
        requires may { May B.script.design pass t }
        ensures keeps { result.0.keeps ≡ false }
        ensures turns { MatchResult result.1 (Turns B.script.design t pass result.0) (Fails B.script.design pass result.0) }
    {
        let mut inside = self.enter(rt);
        let answer = inside.turn(&self.passes, pass, t);
        self.step_out(inside);
        answer
    }

    /// Makes the history durable, and tells its length.
    pub fn settle<R: Wait>(&self, rt: &R, pass: Pass<B>) -> (Pass<B>, Result<u64, EngineError>)
        ensures keeps { result.0.keeps ≡ false }
        ensures settles { MatchResult result.1 (Settles B.script.design pass result.0) (Fails B.script.design pass result.0) }
    {
        let answer = self.lock.lock(rt).settle(&self.passes, pass);
        self.settled.notify_all();
        answer
    }

    /// The reply of t, if it has ended. It makes the history durable first, unless the end of t is. After `Memory` that end is durable.
    pub fn ack<R: Wait>(
        &self,
        rt: &R,
        pass: Pass<B>,
        t: u64,
    ) -> (Pass<B>, Result<Option<Reply>, EngineError>)
        ensures keeps { result.0.keeps ≡ false }
        ensures acks { MatchResult result.1 (Acks B.script.design t pass result.0) (Fails B.script.design pass result.0) }
    {
        let answer = self.gather(rt, t).ack(&self.passes, pass, t);
        self.settled.notify_all();
        answer
    }

    /// The first keeps all, and the second has seen as much. It takes no lock and no memory.
    pub fn split(&self, pass: Pass<B>) -> (Pass<B>, Pass<B>)
        ensures first { result.0 ≡ known false pass.broken pass.seen pass.mine }
        ensures second { result.1 ≡ known pass.keeps pass.broken pass.seen [] }
    {
        self.passes.split(pass)
    }

    /// Both see the longer of the two beginnings. It takes no lock and no memory.
    pub fn meet(&self, first: Pass<B>, second: Pass<B>) -> (Pass<B>, Pass<B>)
        requires { (first.keeps ≡ false) × (second.keeps ≡ false) }
        ensures keeps { (result.0.keeps ≡ false) × (result.1.keeps ≡ false) }
        ensures seen { (result.0.seen ≡ longer first.seen second.seen) × (result.1.seen ≡ longer first.seen second.seen) }
        ensures mine { (result.0.mine ≡ first.mine) × (result.1.mine ≡ second.mine) }
        ensures first { Told first result.0 × Told second result.0 }
        ensures second { Told first result.1 × Told second result.1 }
    {
        self.passes.meet(first, second)
    }

    /// One pass with what both know. It takes no lock and no memory.
    pub fn join(&self, first: Pass<B>, second: Pass<B>) -> Pass<B>
        ensures known { (result.keeps ≡ (first.keeps || second.keeps)) × (result.seen ≡ longer first.seen second.seen)
            × (result.mine ≡ first.mine ++ second.mine) }
        ensures first { Told first result }
        ensures second { Told second result }
    {
        self.passes.join(first, second)
    }

    /// May wait while the history has so many events and the run isn't halted. It takes no memory.
    pub fn pause<R: Wait>(&self, rt: &R, pass: Pass<B>, seen: u64) -> Pass<B>
        ensures keeps { result.keeps ≡ false }
        ensures looks { Looks B.script.design pass result }
    {
        let mut inside = self.moved.wait_while(rt, self.lock.lock(rt), |inside| {
            inside.len() == seen && !inside.is_halted()
        });
        inside.look(&self.passes, pass)
    }

    /// Halts the run. It takes no memory.
    pub fn halt<R: Wait>(&self, rt: &R, pass: Pass<B>, why: Why) -> Pass<B>
        requires { Shows B.script.design pass why }
        ensures keeps { result.keeps ≡ false }
        ensures looks { Looks B.script.design pass result }
    {
        let pass = self.lock.lock(rt).halt(&self.passes, pass, why);
        self.moved.notify_all();
        self.settled.notify_all();
        pass
    }

    /// The engine. It takes no memory.
    pub fn finish(self, pass: Pass<B>) -> Engine<'a, S, D>
        ensures begun { IsPrefix pass.seen result.state.events }
        ensures serves { Serves D.clock D.left_since D.told D.may_leave D.faults B.script B.start B.engine result }
        ensures broken { pass.broken ≡ true → result.failed ≡ true }
    {
        let Shared {
            passes,
            lock,
            moved: _,
            settled: _,
            queued: _,
        } = self;
        lock.into_inner().finish(&passes, pass)
    }

    // Makes the end of t durable.
    fn settle_end<R: Wait>(&self, rt: &R, pass: Pass<B>, t: u64) -> (Pass<B>, Option<Why>)
        ensures keeps { Keeps (AllBegun B.script B.start) (Shows B.script.design) pass result.0 }
        ensures settled { MatchOption result.1 (Same (May B.script.design) pass result.0) (λ why. Shows B.script.design result.0 why) }
    {
        let mut inside = self.gather(rt, t);
        if inside.is_durable(t) {
            return (pass, None);
        }
        let answer = inside.settle_ends(&self.passes, pass);
        drop(inside);
        self.settled.notify_all();
        answer
    }
}

impl<'a, S: Store + Send, D: Disk + Send, B: Run<D> + Send + Sync> Turner for Shared<'a, S, D, B> {
    ghost use Rattle.acc_beside.specs.Calls.{AllBegun, May, Shows, ShowsBlocked};

    type Token = Pass<B>;

    ghost of = { λ shared pass. Unit {0} };

    ghost may = { May B.script.design };

    ghost done = { AllBegun B.script B.start };

    ghost waits = { ShowsBlocked B.script.design };

    ghost shows = { Shows B.script.design };

    fn draw<R: Wait>(&self, rt: &R, token: Pass<B>) -> (Pass<B>, Given) {
        let mut inside = self.enter(rt);
        let answer = inside.given(&self.passes, token);
        self.step_out(inside);
        answer
    }

    fn turn<R: Wait>(&self, rt: &R, token: Pass<B>, t: u64) -> (Pass<B>, Went) {
        let mut inside = self.enter(rt);
        let (pass, went) = inside.went(&self.passes, token, t);
        self.step_out(inside);
        match went {
            Went::Ended => {
                let (pass, halted) = self.settle_end(rt, pass, t);
                match halted {
                    None => (pass, Went::Ended),
                    Some(why) => (pass, Went::Halt(why)),
                }
            }
            Went::On | Went::Wait(_) | Went::Halt(_) => (pass, went),
        }
    }

    fn pause<R: Wait>(&self, rt: &R, token: Pass<B>, seen: u64) -> Pass<B> {
        token.knows();
        let pass = Shared::pause(self, rt, token, seen);
        pass.knows();
        pass
    }
}
