//! A walk over the lines of a design in print, which keeps the first fault.
ghost use Rattle.std.specs.Prelude.{◌≡◌, [], ◌∷◌};
ghost use Rattle.acc_form.specs.Marks.{Broken, End, asked};
ghost use Rattle.acc_form.specs.Faults.{is_lower, is_before, next_line};
ghost use Rattle.acc_form.specs.Walks.{noted, after};
ghost use Rattle.acc_base.specs.Leasts.{better};

use acc_base::rules::FormRule;

/// The line at hand, and what was met so far.
#[derive(Drop)]
pub struct Walk {
    /// The line of the statement at hand, from 1.
    pub line: u64,
    /// The first fault so far: the lowest rule, and the first line that breaks it.
    pub first: Option<(FormRule, u64)>,
}

/// Whether a rule has a lower number than another.
#[tactic(auto, unfolding(crate::specs::Faults::is_lower))]
fn is_lower(a: FormRule, b: FormRule) -> bool
    ensures { result ≡ is_lower a b }
{
    a.number() < b.number()
}

/// Whether a fault comes before another: by its rule, then by its line.
#[tactic(auto, unfolding(crate::specs::Faults::is_before))]
fn is_before(a: (FormRule, u64), b: (FormRule, u64)) -> bool
    ensures { result ≡ is_before a b }
{
    is_lower(a.0, b.0) || (a.0.number() == b.0.number() && a.1 < b.1)
}

/// The earlier one of the first fault so far and another.
fn earlier(first: Option<(FormRule, u64)>, fault: (FormRule, u64)) -> Option<(FormRule, u64)>
    ensures { result ≡ better is_before first fault }
{
    match first {
        Some(f) if !is_before(fault, f) => Some(f),
        _ => Some(fault),
    }
}

impl Walk {
    /// A walk at the first line.
    pub fn new() -> Walk
        ensures { result ≡ record { line = 1; first = None } }
    {
        Walk {
            line: 1,
            first: None,
        }
    }

    /// The statement at hand breaks the rule.
    #[tactic(auto, unfolding(crate::specs::Walks::noted))]
    fn break_rule(&mut self, rule: FormRule)
        ensures { self.new ≡ noted self.old (Broken rule) }
    {
        self.first = earlier(self.first, (rule, self.line));
    }

    /// The rule is asked of the statement at hand.
    pub fn ask(&mut self, rule: FormRule, is_kept: bool)
        ensures { self.new ≡ after self.old (asked rule is_kept) }
    {
        if !is_kept {
            self.break_rule(rule);
        }
    }

    /// The statement at hand ends.
    #[tactic(auto, unfolding(crate::specs::Walks::noted))]
    pub fn end(&mut self)
        ensures { self.new ≡ noted self.old End }
    {
        if self.line < u64::MAX {
            self.line += 1;
        }
    }
}
