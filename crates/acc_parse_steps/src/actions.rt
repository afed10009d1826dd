//! Reading what a path writes, and where it ends, each a statement up to its end.
ghost use Rattle.std.specs.Prelude.{◌≡◌};
ghost use Rattle.acc_grammar.specs.Readers.{many};
ghost use Rattle.acc_grammar.specs.Answers.{Gives};
ghost use Rattle.acc_parse_steps.specs.ActionReaders.{put_at, del_at, set_at, add_at, action_at, starts_action, refuse_at};
ghost use Rattle.acc_parse_steps.specs.ActionReaders.{target_at};

use acc_base::sequences::Seq;
use acc_grammar::faults::Fault;
use acc_lex::words::Sign;
use acc_parse_syntax::parsers::Parser;
use acc_parse_syntax::trees::{ActionTree, TargetTree};

#[tactic(auto, unfolding(crate::specs::ActionReaders::put_at))]
fn put(parser: &mut Parser<'_>) -> Result<ActionTree, Fault>
    ensures { Gives result parser.new.words.now (put_at parser.old.words.now) }
{
    parser.sign(Sign::Put)?;
    let place = parser.place()?;
    let values = parser.values()?;
    parser.ended(ActionTree::Put(place, values))
}

#[tactic(auto, unfolding(crate::specs::ActionReaders::del_at))]
fn del(parser: &mut Parser<'_>) -> Result<ActionTree, Fault>
    ensures { Gives result parser.new.words.now (del_at parser.old.words.now) }
{
    parser.sign(Sign::Del)?;
    let place = parser.place()?;
    parser.ended(ActionTree::Del(place))
}

#[tactic(auto, unfolding(crate::specs::ActionReaders::set_at))]
fn set(parser: &mut Parser<'_>) -> Result<ActionTree, Fault>
    ensures { Gives result parser.new.words.now (set_at parser.old.words.now) }
{
    parser.sign(Sign::Set)?;
    let cell = parser.cell()?;
    let value = parser.sum()?;
    parser.ended(ActionTree::Set(cell, value))
}

#[tactic(auto, unfolding(crate::specs::ActionReaders::add_at))]
fn add(parser: &mut Parser<'_>) -> Result<ActionTree, Fault>
    ensures { Gives result parser.new.words.now (add_at parser.old.words.now) }
{
    parser.sign(Sign::Add)?;
    let cell = parser.cell()?;
    let value = parser.sum()?;
    parser.ended(ActionTree::Add(cell, value))
}

#[tactic(auto, unfolding(crate::specs::ActionReaders::action_at))]
fn action(parser: &mut Parser<'_>) -> Result<ActionTree, Fault>
    ensures { Gives result parser.new.words.now (action_at parser.old.words.now) }
{
    if parser.comes(Sign::Put) {
        put(parser)
    } else if parser.comes(Sign::Del) {
        del(parser)
    } else if parser.comes(Sign::Set) {
        set(parser)
    } else {
        add(parser)
    }
}

fn starts_action(parser: &Parser<'_>) -> bool
    ensures { result ≡ starts_action parser.now.words.now }
{
    parser.comes(Sign::Put)
        || parser.comes(Sign::Del)
        || parser.comes(Sign::Set)
        || parser.comes(Sign::Add)
}

pub(crate) fn actions(parser: &mut Parser<'_>) -> Result<Seq<ActionTree>, Fault>
    ensures { Gives result parser.new.words.now (many starts_action action_at parser.old.words.now) }
{
    let mut actions = Seq::new(parser.alloc);
    while starts_action(parser) {
        let action = action(parser)?;
        actions.push(action)?;
    }
    Ok(actions)
}

#[tactic(auto, unfolding(crate::specs::ActionReaders::refuse_at))]
fn refuse(parser: &mut Parser<'_>) -> Result<TargetTree, Fault>
    ensures { Gives result parser.new.words.now (refuse_at parser.old.words.now) }
{
    parser.sign(Sign::Refuse)?;
    let number = parser.number()?;
    parser.ended(TargetTree::Refuse(number))
}

#[tactic(auto, unfolding(crate::specs::ActionReaders::target_at))]
pub(crate) fn target(parser: &mut Parser<'_>) -> Result<TargetTree, Fault>
    ensures { Gives result parser.new.words.now (target_at parser.old.words.now) }
{
    if parser.takes(Sign::Goto) {
        let point = parser.name()?;
        parser.ended(TargetTree::Goto(point))
    } else if parser.takes(Sign::Commit) {
        parser.ended(TargetTree::Commit)
    } else if parser.takes(Sign::Undone) {
        parser.ended(TargetTree::Undone)
    } else {
        refuse(parser)
    }
}
