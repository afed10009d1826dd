//! What lies under the lock: the engine, and the keeper's pass.
ghost use Rattle.std.specs.Prelude.{◌≡◌, true, false, [], length, Some, is_some, MatchResult, IfSome};
ghost use Rattle.acc_engine.specs.Acks.{durable_reply};
ghost use mathlib.Core.List.{IsPrefix};
ghost use Rattle.acc_pass.specs.Rules.{known};
ghost use Rattle.acc_beside.specs.Serving.{Serves};
ghost use Rattle.acc_beside.specs.Calls.{Draws, Turns, Settles, Acks, Fails, Looks, Shows, May};

use crate::groups::Group;
use acc_base::machines::{Reply, Turn};
use acc_beside::{Run, ack_in, draw_in, settle_in, take_in, turn_in};
use acc_disk::Disk;
use acc_engine::{Drawn, Engine, EngineError};
use acc_pass::{Pass, Passes, Room};
use acc_store::Store;
use acc_workers::Why;
use std::marker::Model;

/// An engine with the keeper, whose `seen` is the whole history.
#[derive(Drop)]
pub struct Locked<'a, S: Store, D: Disk, B: Run<D>> {
    engine: Engine<'a, S, D>,
    keeper: Option<Pass<B>>,
    halted: Option<Why>,
    group: Group,
}

impl<'a, S: Store, D: Disk, B: Run<D>> Model for Locked<'a, S, D, B> {
    ghost use Rattle.std.specs.Prelude.{◌≡◌, true, [], Some, MatchOption};
    ghost use Rattle.acc_engine.specs.Keeping.{Journalled};
    ghost use Rattle.acc_pass.specs.Rules.{known};
    ghost use Rattle.acc_beside.specs.Serving.{Serves, IsCause};

    ghost Value = { Journalled D };

    ghost view = { λ l. l.engine };

    ghost invariant = { λ l. (l.keeper ≡ Some (known true l.engine.failed l.engine.state.events []))
        × Serves D.clock D.left_since D.told D.may_leave D.faults B.script B.start B.engine l.engine
        × MatchOption l.halted (Unit {0}) (λ why. IsCause B.script.design l.engine.state.events l.engine.failed why) };
}

impl<'a, S: Store, D: Disk, B: Run<D>> Locked<'a, S, D, B> {
    /// The engine under the keeper.
    pub fn new(engine: Engine<'a, S, D>, keeper: Pass<B>) -> Self
        requires keeper { keeper ≡ known true engine.failed engine.state.events [] }
        requires serves { Serves D.clock D.left_since D.told D.may_leave D.faults B.script B.start B.engine engine }
        ensures { result ≡ engine.entry }
    {
        Locked {
            engine,
            keeper: Some(keeper),
            halted: None,
            group: Group::new(),
        }
    }

    /// Draws the next place.
    pub fn draw(
        &mut self,
        passes: &Passes<B>,
        pass: Pass<B>,
    ) -> (Pass<B>, Result<Drawn, EngineError>)
        ensures keeps { result.0.keeps ≡ false }
        ensures draws { MatchResult result.1 (Draws B.script B.start pass result.0) (Fails B.script.design pass result.0) }
    {
        let Some(keeper) = self.keeper.take() else {
            unreachable!()
        };
        let joined = take_in(passes, keeper, pass);
        let (joined, drawn) = draw_in(passes, &mut self.engine, joined);
        let (pass, keeper) = passes.split(joined);
        self.keeper = Some(keeper);
        (pass, drawn)
    }

    /// One turn of t.
    pub fn turn(
        &mut self,
        passes: &Passes<B>,
        pass: Pass<B>,
        t: u64,
    ) -> (Pass<B>, Result<Turn, EngineError>)
        requires may { May B.script.design pass t }
        ensures keeps { result.0.keeps ≡ false }
        ensures turns { MatchResult result.1 (Turns B.script.design t pass result.0) (Fails B.script.design pass result.0) }
    {
        let Some(keeper) = self.keeper.take() else {
            unreachable!()
        };
        let joined = take_in(passes, keeper, pass);
        let (joined, turned) = turn_in(passes, &mut self.engine, joined, t);
        let (pass, keeper) = passes.split(joined);
        self.keeper = Some(keeper);
        (pass, turned)
    }

    /// Makes the history durable.
    pub fn settle(
        &mut self,
        passes: &Passes<B>,
        pass: Pass<B>,
    ) -> (Pass<B>, Result<u64, EngineError>)
        ensures keeps { result.0.keeps ≡ false }
        ensures settles { MatchResult result.1 (Settles B.script.design pass result.0) (Fails B.script.design pass result.0) }
    {
        let Some(keeper) = self.keeper.take() else {
            unreachable!()
        };
        let joined = take_in(passes, keeper, pass);
        let (joined, settled) = settle_in(passes, &mut self.engine, joined);
        self.group.rest();
        let (pass, keeper) = passes.split(joined);
        self.keeper = Some(keeper);
        (pass, settled)
    }

    /// The reply of t, if it has ended. It makes the history durable first, unless the end of t is.
    pub fn ack(
        &mut self,
        passes: &Passes<B>,
        pass: Pass<B>,
        t: u64,
    ) -> (Pass<B>, Result<Option<Reply>, EngineError>)
        ensures keeps { result.0.keeps ≡ false }
        ensures acks { MatchResult result.1 (Acks B.script.design t pass result.0) (Fails B.script.design pass result.0) }
    {
        let Some(keeper) = self.keeper.take() else {
            unreachable!()
        };
        let joined = take_in(passes, keeper, pass);
        let (joined, acked) = ack_in(passes, &mut self.engine, joined, t);
        self.group.rest();
        let (pass, keeper) = passes.split(joined);
        self.keeper = Some(keeper);
        (pass, acked)
    }

    /// The number of events.
    pub fn len(&self) -> u64
        ensures { result ≡ length self.now.state.events }
    {
        self.engine.state().events().len() as u64
    }

    /// Whether the run is halted.
    pub fn is_halted(&self) -> bool {
        self.halted.is_some()
    }

    /// The cause of the halt, which the pass then shows.
    pub fn cause(&mut self, passes: &Passes<B>, pass: Pass<B>) -> (Pass<B>, Option<Why>)
        ensures keeps { result.0.keeps ≡ false }
        ensures looks { Looks B.script.design pass result.0 }
        ensures shows { IfSome result.1 (λ why. Shows B.script.design result.0 why) }
    {
        let Some(keeper) = self.keeper.take() else {
            unreachable!()
        };
        let joined = take_in(passes, keeper, pass);
        let (pass, keeper) = passes.split(joined);
        self.keeper = Some(keeper);
        (pass, self.halted)
    }

    /// Halts the run.
    pub fn halt(&mut self, passes: &Passes<B>, pass: Pass<B>, why: Why) -> Pass<B>
        requires { Shows B.script.design pass why }
        ensures keeps { result.keeps ≡ false }
        ensures looks { Looks B.script.design pass result }
    {
        let Some(keeper) = self.keeper.take() else {
            unreachable!()
        };
        let joined = take_in(passes, keeper, pass);
        let (pass, keeper) = passes.split(joined);
        self.keeper = Some(keeper);
        self.halted = Some(why);
        self.group.hurry();
        pass
    }

    /// Sees the history as it is.
    pub fn look(&mut self, passes: &Passes<B>, pass: Pass<B>) -> Pass<B>
        ensures keeps { result.keeps ≡ false }
        ensures looks { Looks B.script.design pass result }
    {
        let Some(keeper) = self.keeper.take() else {
            unreachable!()
        };
        let joined = take_in(passes, keeper, pass);
        let (pass, keeper) = passes.split(joined);
        self.keeper = Some(keeper);
        pass
    }

    /// Whether t has ended and its end is durable.
    pub fn is_durable(&self, t: u64) -> bool
        ensures { result ≡ is_some (durable_reply self.now t) }
    {
        self.engine.ack(t).is_some()
    }

    /// One more waits for an end to become durable.
    pub fn join(&mut self)
        ensures { self.new ≡ self.old }
    {
        self.group.join();
    }

    /// One waits no longer.
    pub fn leave(&mut self)
        ensures { self.new ≡ self.old }
    {
        self.group.leave();
    }

    /// A draw or a turn was made, behind which so many are queued for theirs. It tells whether one of those who wait is to settle now.
    pub fn moved(&mut self, queued: u64) -> bool
        ensures { self.new ≡ self.old }
    {
        self.group.moved(queued)
    }

    /// Whether who waits for the end of t to become durable has no cause yet to wait no longer.
    pub fn may_wait(&self, t: u64) -> bool {
        !self.group.is_due() && !self.is_halted() && !self.is_durable(t)
    }

    /// The engine.
    pub fn finish(self, passes: &Passes<B>, pass: Pass<B>) -> Engine<'a, S, D>
        ensures begun { IsPrefix pass.seen result.state.events }
        ensures serves { Serves D.clock D.left_since D.told D.may_leave D.faults B.script B.start B.engine result }
        ensures broken { pass.broken ≡ true → result.failed ≡ true }
    {
        let Locked {
            engine,
            keeper,
            halted: _,
            group: _,
        } = self;
        let Some(keeper) = keeper else { unreachable!() };
        let joined = take_in(passes, keeper, pass);
        joined.knows();
        engine
    }
}
