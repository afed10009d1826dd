//! A walk over the statements of a design, which keeps the first fault and the lowest limit.
ghost use Rattle.std.specs.Prelude.{◌≡◌, [], ◌∷◌, IsTrue, ◌↔◌};
ghost use Rattle.acc_parse_limits.specs.Numbers.{is_lower, is_before};
ghost use Rattle.acc_parse_limits.specs.Marks.{Past, End, past};
ghost use Rattle.acc_parse_limits.specs.Walks.{noted, after};
ghost use Rattle.acc_base.specs.Leasts.{better};

use acc_base::limits::Limit;

/// The statement at hand, and what was met so far.
#[derive(Drop)]
pub struct Walk {
    /// The number of the statement at hand, from 0.
    pub statement: u64,
    /// The first fault so far: a statement, and a limit that it passes.
    pub first: Option<(u64, Limit)>,
    /// The first statement whose limits `lowest` is about.
    pub from: u64,
    /// The statement behind those.
    pub to: u64,
    /// The lowest limit that was passed by one of those statements so far.
    pub lowest: Option<Limit>,
}

/// Whether a limit has a lower number than another.
#[tactic(auto, unfolding(crate::specs::Numbers::is_lower))]
fn is_lower(a: Limit, b: Limit) -> bool
    ensures { result ≡ is_lower a b }
{
    a.number() < b.number()
}

/// Whether a fault comes before another.
#[tactic(auto, unfolding(crate::specs::Numbers::is_before))]
fn is_before(a: (u64, Limit), b: (u64, Limit)) -> bool
    ensures { result ≡ is_before a b }
{
    a.0 < b.0 || (a.0 == b.0 && is_lower(a.1, b.1))
}

/// The earlier one of the best fault so far and another.
fn earlier(best: Option<(u64, Limit)>, fault: (u64, Limit)) -> Option<(u64, Limit)>
    ensures { result ≡ better is_before best fault }
{
    match best {
        Some(b) if !is_before(fault, b) => Some(b),
        _ => Some(fault),
    }
}

/// The lower one of the best limit so far and another.
fn lower(best: Option<Limit>, limit: Limit) -> Option<Limit>
    ensures { result ≡ better is_lower best limit }
{
    match best {
        Some(b) if !is_lower(limit, b) => Some(b),
        _ => Some(limit),
    }
}

impl Walk {
    /// A walk at the first statement, with an eye on the statements from one number up to before another.
    pub fn new(from: u64, to: u64) -> Walk
        ensures { result ≡ record { statement = 0; first = None; from = from; to = to; lowest = None } }
    {
        Walk {
            statement: 0,
            first: None,
            from,
            to,
            lowest: None,
        }
    }

    /// The statement at hand passes the limit.
    #[tactic(auto, unfolding(crate::specs::Walks::noted))]
    fn pass(&mut self, limit: Limit)
        ensures { self.new ≡ noted self.old (Past limit) }
    {
        self.first = earlier(self.first, (self.statement, limit));
        if self.from <= self.statement && self.statement < self.to {
            self.lowest = lower(self.lowest, limit);
        }
    }

    /// The statement at hand passes the limit, where it is passed.
    pub fn pass_if(&mut self, limit: Limit, is_passed: bool)
        ensures { self.new ≡ after self.old (past limit is_passed) }
    {
        if is_passed {
            self.pass(limit);
        }
    }

    /// The statement at hand ends.
    #[tactic(auto, unfolding(crate::specs::Walks::noted))]
    pub fn end(&mut self)
        ensures { self.new ≡ noted self.old End }
    {
        if self.statement < u64::MAX {
            self.statement += 1;
        }
    }
}
