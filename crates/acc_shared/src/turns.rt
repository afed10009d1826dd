//! The calls of a turner, under the lock.
ghost use Rattle.std.specs.Prelude.{◌≡◌, MatchOption};
ghost use Rattle.acc_workers.specs.Turns.{Same, Gives, Goes, Keeps};
ghost use Rattle.acc_beside.specs.Calls.{Shows, ShowsBlocked, ShowsFault, cause_for, AllBegun, May};

use crate::locked::Locked;
use acc_base::machines::Turn;
use acc_beside::Run;
use acc_disk::Disk;
use acc_engine::{Drawn, EngineError};
use acc_pass::{Pass, Passes, Room};
use acc_store::Store;
use acc_workers::{Given, Went, Why};

// Why a failure halts the run.
fn cause_of(error: EngineError) -> Why
    ensures { result ≡ cause_for error }
{
    match error {
        EngineError::Memory => Why::Memory,
        EngineError::Disk => Why::Disk,
        EngineError::Failed => Why::Disk,
    }
}

impl<'a, S: Store, D: Disk, B: Run<D>> Locked<'a, S, D, B> {
    // Halts the run after a failure, which the pass shows.
    fn stop(&mut self, passes: &Passes<B>, pass: Pass<B>, error: EngineError) -> (Pass<B>, Why)
        requires { ShowsFault error pass.broken }
        ensures keeps { Keeps (AllBegun B.script B.start) (Shows B.script.design) pass result.0 }
        ensures shows { Shows B.script.design result.0 result.1 }
    {
        let why = cause_of(error);
        (self.halt(passes, pass, why), why)
    }

    // The draw.
    fn drawn(&mut self, passes: &Passes<B>, pass: Pass<B>) -> (Pass<B>, Given)
        ensures keeps { Keeps (AllBegun B.script B.start) (Shows B.script.design) pass result.0 }
        ensures given { Gives (May B.script.design) (AllBegun B.script B.start) (Shows B.script.design) pass result.0 result.1 }
    {
        pass.knows();
        let (pass, drawn) = self.draw(passes, pass);
        pass.knows();
        match drawn {
            Ok(drawn) => match drawn {
                Drawn::Begun(t) => (pass, Given::Begun(t)),
                Drawn::Empty => (pass, Given::NoMore),
                Drawn::Full => (self.halt(passes, pass, Why::Full), Given::Halt(Why::Full)),
                Drawn::Crowd => (self.halt(passes, pass, Why::Crowd), Given::Halt(Why::Crowd)),
            },
            Err(error) => {
                let (pass, why) = self.stop(passes, pass, error);
                (pass, Given::Halt(why))
            }
        }
    }

    /// Draws the next place, if the run isn't halted.
    pub fn given(&mut self, passes: &Passes<B>, pass: Pass<B>) -> (Pass<B>, Given)
        ensures keeps { Keeps (AllBegun B.script B.start) (Shows B.script.design) pass result.0 }
        ensures given { Gives (May B.script.design) (AllBegun B.script B.start) (Shows B.script.design) pass result.0 result.1 }
    {
        pass.knows();
        let (pass, cause) = self.cause(passes, pass);
        pass.knows();
        match cause {
            Some(why) => (pass, Given::Halt(why)),
            None => self.drawn(passes, pass),
        }
    }

    /// Makes the history durable.
    pub fn settle_ends(&mut self, passes: &Passes<B>, pass: Pass<B>) -> (Pass<B>, Option<Why>)
        ensures keeps { Keeps (AllBegun B.script B.start) (Shows B.script.design) pass result.0 }
        ensures settled { MatchOption result.1 (Same (May B.script.design) pass result.0) (λ why. Shows B.script.design result.0 why) }
    {
        pass.knows();
        let (pass, settled) = self.settle(passes, pass);
        pass.knows();
        match settled {
            Ok(_) => (pass, None),
            Err(error) => {
                let (pass, why) = self.stop(passes, pass, error);
                (pass, Some(why))
            }
        }
    }

    // The turn.
    fn turned(&mut self, passes: &Passes<B>, pass: Pass<B>, t: u64) -> (Pass<B>, Went)
        requires { May B.script.design pass t }
        ensures keeps { Keeps (AllBegun B.script B.start) (Shows B.script.design) pass result.0 }
        ensures went { Goes (May B.script.design) (ShowsBlocked B.script.design) (Shows B.script.design) t pass result.0 result.1 }
    {
        pass.knows();
        let (pass, turned) = self.turn(passes, pass, t);
        pass.knows();
        match turned {
            Ok(turned) => match turned {
                Turn::Stepped(_) => (pass, Went::On),
                Turn::Turned(_) => (pass, Went::On),
                Turn::Back(_) => (pass, Went::On),
                Turn::Blocked(_, _) => (pass, Went::Wait(self.len())),
                Turn::Ended => (pass, Went::Ended),
            },
            Err(error) => {
                let (pass, why) = self.stop(passes, pass, error);
                (pass, Went::Halt(why))
            }
        }
    }

    /// One turn of t, if the run isn't halted. An end isn't durable yet.
    pub fn went(&mut self, passes: &Passes<B>, pass: Pass<B>, t: u64) -> (Pass<B>, Went)
        requires { May B.script.design pass t }
        ensures keeps { Keeps (AllBegun B.script B.start) (Shows B.script.design) pass result.0 }
        ensures went { Goes (May B.script.design) (ShowsBlocked B.script.design) (Shows B.script.design) t pass result.0 result.1 }
    {
        pass.knows();
        let (pass, cause) = self.cause(passes, pass);
        pass.knows();
        match cause {
            Some(why) => (pass, Went::Halt(why)),
            None => self.turned(passes, pass, t),
        }
    }
}
