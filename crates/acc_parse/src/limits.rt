//! The first line that passes a limit, and the lowest limit that is passed there.
ghost use Rattle.std.specs.Prelude.{◌≡◌, ◌<◌, ◌^◌, [], IfOk, IfNone, IfSome};
ghost use Rattle.acc_parse_statements.specs.Counts.{statements_of};
ghost use Rattle.acc_parse_limits.specs.Numbers.{is_before};
ghost use Rattle.acc_base.specs.Leasts.{IsLeast};
ghost use Rattle.acc_parse_meaning.specs.Sizes.{size_faults};
ghost use Rattle.acc_parse.specs.Texts.{IsGrammatical, past_limits};
ghost use Rattle.acc_parse.specs.Faults.{IsFirstIn, PassesAt};

use acc_parse_limits::{Limit, first_fault, lowest_on};
use acc_parse_statements::line_of;
use acc_parse_syntax::trees::DesignTree;
use std::alloc::{AllocError, Global};

/// The first statement that passes a limit; `collected` is the first that does by the numbers that are collected.
pub fn first_passed(tree: &DesignTree, collected: Option<(u64, Limit)>) -> Option<u64>
    requires few { statements_of tree.now < 2 ^ 64 }
    requires none { IfNone collected (size_faults tree.now ≡ []) }
    requires first { IfSome collected (IsLeast is_before (size_faults tree.now)) }
    ensures none { IfNone result (past_limits tree.now ≡ []) }
    ensures first { IfSome result (IsFirstIn (past_limits tree.now)) }
{
    match (first_fault(tree), collected) {
        (Some((n, _)), Some((m, _))) => Some(n.min(m)),
        (Some((n, _)), None) => Some(n),
        (None, Some((m, _))) => Some(m),
        (None, None) => None,
    }
}

/// A line of a text, and a limit that is passed there.
#[derive(Clone, Copy)]
pub struct PassedLimit {
    pub line: u64,
    pub which: Limit,
}

/// The line of the first statement that passes a limit, and the lowest limit that is passed there. The collected numbers pass the
/// limit with the highest number.
pub fn limit_at(
    alloc: Global,
    text: &[u8],
    tree: &DesignTree,
    first: u64,
) -> Result<PassedLimit, AllocError>
    requires grammatical { (g : IsGrammatical text.now) × (g.tree ≡ tree.now) }
    requires few { statements_of tree.now < 2 ^ 64 }
    requires first { IsFirstIn (past_limits tree.now) first }
    ensures { IfOk result (λ p. PassesAt text.now tree.now p.line p.which) }
{
    let line = line_of(alloc, text, first)?;
    let limit = match lowest_on(tree, line.from, line.to) {
        Some(limit) => limit,
        None => Limit::NumberSize,
    };
    Ok(PassedLimit {
        line: line.number,
        which: limit,
    })
}
