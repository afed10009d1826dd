//! Workers, as their caller sees them.
ghost use Rattle.std.specs.Prelude.{◌≡◌};

use acc_disk::Disk;
use acc_engine::Engine;
use acc_store::Store;
use std::alloc::Global;

/// What a crew works, which is an engine. A crew is of one type of engine, so that it may be a call with its own types.
pub trait Workable {
    // it has begun no call, and hasn't failed
    ghost fresh: { Self → Type 0 };

    // what it keeps, whatever is asked of it
    ghost sound: { Self → Type 0 };

    // what work leaves of it
    ghost works: { Self → Self → Type 0 };

    /// What it keeps, for a contract. It does nothing.
    fn standing(&self)
        ensures { sound self.now };

    // where nobody works
    ghost idle: { (e : Self) → fresh e → works e e };
}

impl<'a, S: Store, D: Disk> Workable for Engine<'a, S, D> {
    ghost use Rattle.acc_engine.specs.Standing.{IsSound};
    ghost use Rattle.acc_crew.specs.Works.{IsUnworked, Works};
    ghost use Rattle.acc_crew.specs.Idle.{works_none};

    ghost fresh = { λ e. IsUnworked e };

    ghost sound = { λ e. IsSound D.told e };

    ghost works = { λ e f. Works D.clock D.left_since D.told D.may_leave D.faults e f };

    fn standing(&self) {
        Engine::standing(self);
    }

    ghost idle = { λ e h. works_none D.clock D.left_since D.told D.may_leave D.faults D.only_now e h };
}

/// Who draws an engine's calls and gives them turns, before their caller ends what is left of them. Whatever a crew does, its caller
/// knows of it what `works` says: nothing of it depends on how many work, or on whose turn came when.
pub trait Crew<E: Workable> {
    // what has to be so of a crew that it works
    ghost ready: { Self → Type 0 };

    /// Lets at most so many workers draw and turn the calls of an engine that has begun none. What they leave unbegun or unfinished, and
    /// what isn't durable then, is for the caller.
    fn work(&self, alloc: Global, engine: E, workers: u64) -> E
        requires ready { ready self.now }
        requires fresh { E.fresh engine }
        ensures sound { E.sound result }
        ensures works { E.works engine result };
}

/// Nobody but the caller, who ends all. It waits for nobody.
#[derive(Clone, Copy)]
pub struct Alone;

impl<E: Workable> Crew<E> for Alone {
    ghost ready = { λ c. Unit {0} };

    fn work(&self, _alloc: Global, engine: E, _workers: u64) -> E {
        engine.standing();
        engine
    }
}

/// A crew that is a call, such as a closure that starts threads.
#[derive(Clone, Copy)]
pub struct Called<F> {
    work: F,
}

impl<F> Called<F> {
    /// The crew that is this call.
    pub fn new<E: Workable>(work: F) -> Self
    where
        F: Fn(Global, E, u64) -> E,
        ensures { result.work ≡ work }
    {
        Called { work }
    }
}

impl<E: Workable, F: Fn(Global, E, u64) -> E> Crew<E> for Called<F> {
    ghost use Rattle.acc_crew.specs.Calls.{WorksSo};

    ghost ready = { λ c. WorksSo E.fresh E.sound E.works (F.pre c.work) (F.post c.work) };

    fn work(&self, alloc: Global, engine: E, workers: u64) -> E {
        (self.work)(alloc, engine, workers)
    }
}
