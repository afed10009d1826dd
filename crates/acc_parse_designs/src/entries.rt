//! Reading entries and hints, each a statement up to its end.
ghost use Rattle.std.specs.Prelude.{◌≡◌};
ghost use Rattle.acc_grammar.specs.Readers.{many};
ghost use Rattle.acc_grammar.specs.Answers.{Gives};
ghost use Rattle.acc_parse_syntax.specs.WordReaders.{comes, further_at};
ghost use Rattle.acc_parse_designs.specs.EntryReaders.{point_name_at, side_name_at, pair_at, pairs_at, entry_head_at, entry_at, hint_at};

use acc_base::sequences::Seq;
use acc_grammar::faults::Fault;
use acc_lex::words::Sign;
use acc_parse_syntax::parsers::Parser;
use acc_parse_syntax::trees::{EntryTree, HintTree, PairTree, Pairs, PointName, SideTree};

/// What an entry begins with: two points.
#[derive(Drop)]
struct EntryHead {
    held: PointName,
    by: PointName,
}

#[tactic(auto, unfolding(crate::specs::EntryReaders::point_name_at))]
fn point_name(parser: &mut Parser<'_>) -> Result<PointName, Fault>
    ensures { Gives result parser.new.words.now (point_name_at parser.old.words.now) }
{
    let type_name = parser.name()?;
    parser.sign(Sign::Dot)?;
    let point = parser.name()?;
    Ok(PointName { type_name, point })
}

/// `next` or `undo`.
#[tactic(auto, unfolding(crate::specs::EntryReaders::side_name_at))]
fn side_name(parser: &mut Parser<'_>) -> Result<SideTree, Fault>
    ensures { Gives result parser.new.words.now (side_name_at parser.old.words.now) }
{
    if parser.takes(Sign::Next) {
        Ok(SideTree::Next)
    } else {
        parser.sign(Sign::Undo)?;
        Ok(SideTree::Undo)
    }
}

#[tactic(auto, unfolding(crate::specs::EntryReaders::pair_at))]
fn pair(parser: &mut Parser<'_>) -> Result<PairTree, Fault>
    ensures { Gives result parser.new.words.now (pair_at parser.old.words.now) }
{
    let held = parser.variable()?;
    parser.sign(Sign::Equal)?;
    let step = parser.variable()?;
    Ok(PairTree { held, step })
}

fn further_pairs(parser: &mut Parser<'_>) -> Result<Seq<PairTree>, Fault>
    ensures { Gives result parser.new.words.now (many (comes Sign.Comma) (further_at pair_at) parser.old.words.now) }
{
    let mut pairs = Seq::new(parser.alloc);
    while parser.takes(Sign::Comma) {
        let pair = pair(parser)?;
        pairs.push(pair)?;
    }
    Ok(pairs)
}

#[tactic(auto, unfolding(crate::specs::EntryReaders::pairs_at))]
fn pairs(parser: &mut Parser<'_>) -> Result<Option<Pairs>, Fault>
    ensures { Gives result parser.new.words.now (pairs_at parser.old.words.now) }
{
    if parser.takes(Sign::Colon) {
        let first = pair(parser)?;
        let others = further_pairs(parser)?;
        Ok(Some(Pairs { first, others }))
    } else {
        Ok(None)
    }
}

#[tactic(auto, unfolding(crate::specs::EntryReaders::entry_head_at))]
fn entry_head(parser: &mut Parser<'_>) -> Result<EntryHead, Fault>
    ensures { Gives result parser.new.words.now (entry_head_at parser.old.words.now) }
{
    parser.sign(Sign::Entry)?;
    let held = point_name(parser)?;
    parser.sign(Sign::By)?;
    let by = point_name(parser)?;
    Ok(EntryHead { held, by })
}

#[tactic(auto, unfolding(crate::specs::EntryReaders::entry_at))]
fn entry(parser: &mut Parser<'_>) -> Result<EntryTree, Fault>
    ensures { Gives result parser.new.words.now (entry_at parser.old.words.now) }
{
    let head = entry_head(parser)?;
    let side = side_name(parser)?;
    let pairs = pairs(parser)?;
    parser.ended(EntryTree {
        held: head.held,
        by: head.by,
        side,
        pairs,
    })
}

pub(crate) fn entries(parser: &mut Parser<'_>) -> Result<Seq<EntryTree>, Fault>
    ensures { Gives result parser.new.words.now (many (comes Sign.Entry) entry_at parser.old.words.now) }
{
    let mut entries = Seq::new(parser.alloc);
    while parser.comes(Sign::Entry) {
        let entry = entry(parser)?;
        entries.push(entry)?;
    }
    Ok(entries)
}

#[tactic(auto, unfolding(crate::specs::EntryReaders::hint_at))]
fn hint(parser: &mut Parser<'_>) -> Result<HintTree, Fault>
    ensures { Gives result parser.new.words.now (hint_at parser.old.words.now) }
{
    parser.sign(Sign::Hint)?;
    let of = point_name(parser)?;
    let side = side_name(parser)?;
    let value = parser.sum()?;
    parser.ended(HintTree { of, side, value })
}

pub(crate) fn hints(parser: &mut Parser<'_>) -> Result<Seq<HintTree>, Fault>
    ensures { Gives result parser.new.words.now (many (comes Sign.Hint) hint_at parser.old.words.now) }
{
    let mut hints = Seq::new(parser.alloc);
    while parser.comes(Sign::Hint) {
        let hint = hint(parser)?;
        hints.push(hint)?;
    }
    Ok(hints)
}
