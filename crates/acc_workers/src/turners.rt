//! What workers turn.
use std::sync::Wait;

/// Why a run is halted: the history is full, too many transactions are unfinished, the disk failed, or memory ran out.
#[derive(Clone, Copy, PartialEq, Eq, Debug)]
pub enum Why {
    Full,
    Crowd,
    Disk,
    Memory,
}

/// What a draw gives: the number of a transaction that began, that no place is left, or that the run is halted.
#[derive(Clone, Copy, PartialEq, Eq, Debug)]
pub enum Given {
    Begun(u64),
    NoMore,
    Halt(Why),
}

/// How a turn went: the transaction goes on, waits while the history has this many events, has ended, or the run is halted.
#[derive(Clone, Copy, PartialEq, Eq, Debug)]
pub enum Went {
    On,
    Wait(u64),
    Ended,
    Halt(Why),
}

/// How the work ended: no place was left, or the run is halted.
#[derive(Clone, Copy, PartialEq, Eq, Debug)]
pub enum Over {
    Done,
    Halt(Why),
}

/// What workers turn. Each worker has a token, which it hands in at each call and gets back.
pub trait Turner: Sync {
    ghost use Rattle.std.specs.Prelude.{ℕ};
    ghost use Rattle.acc_workers.specs.declared.turners.Why.{Why as Cause};
    ghost use Rattle.acc_workers.specs.Turns.{Same, Keeps, Gives, Goes};

    type Token: Send;

    // whether a token is of this turner
    ghost of: { Self → Self.Token → Type 0 };

    // the numbers that a token may turn
    ghost may: { Self.Token → ℕ → Type 0 };

    // what a token shows: that no place is left, that t is blocked, why a run is halted
    ghost done: { Self.Token → Type 0 };

    ghost waits: { Self.Token → ℕ → Type 0 };

    ghost shows: { Self.Token → Cause → Type 0 };

    /// Begins the next transaction, which the token may turn from then on.
    fn draw<R: Wait>(&self, rt: &R, token: Self::Token) -> (Self::Token, Given)
        requires { of self.now token }
        ensures of { of self.now result.0 }
        ensures keeps { Keeps done shows token result.0 }
        ensures given { Gives may done shows token result.0 result.1 };

    /// One turn of t. Where it ends t, that is durable before it is told.
    fn turn<R: Wait>(&self, rt: &R, token: Self::Token, t: u64) -> (Self::Token, Went)
        requires of { of self.now token }
        requires may { may token t }
        ensures of { of self.now result.0 }
        ensures keeps { Keeps done shows token result.0 }
        ensures went { Goes may waits shows t token result.0 result.1 };

    /// May wait while the history has this many events and the run isn't halted.
    fn pause<R: Wait>(&self, rt: &R, token: Self::Token, seen: u64) -> Self::Token
        requires { of self.now token }
        ensures of { of self.now result }
        ensures keeps { Keeps done shows token result }
        ensures same { Same may token result };
}
