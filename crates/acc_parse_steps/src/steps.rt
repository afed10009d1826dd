//! Reading paths and steps.
ghost use Rattle.std.specs.Prelude.{◌≡◌};
ghost use Rattle.acc_grammar.specs.Readers.{many};
ghost use Rattle.acc_grammar.specs.Answers.{Gives};
ghost use Rattle.acc_parse_syntax.specs.WordReaders.{comes};
ghost use Rattle.acc_parse_steps.specs.StepReaders.{path_at, step_at, side_at};

use crate::actions::{actions, target};
use crate::reads::reads;
use acc_base::sequences::Seq;
use acc_grammar::faults::Fault;
use acc_lex::words::Sign;
use acc_parse_syntax::boxes::Boxed;
use acc_parse_syntax::parsers::Parser;
use acc_parse_syntax::trees::{PathTree, StepTree};

#[tactic(auto, unfolding(crate::specs::StepReaders::path_at))]
fn path(parser: &mut Parser<'_>) -> Result<PathTree, Fault>
    ensures { Gives result parser.new.words.now (path_at parser.old.words.now) }
{
    parser.sign(Sign::Path)?;
    let guard = parser.guard()?;
    parser.sign(Sign::End)?;
    let actions = actions(parser)?;
    let target = target(parser)?;
    Ok(PathTree {
        guard,
        actions,
        target,
    })
}

fn paths(parser: &mut Parser<'_>) -> Result<Seq<PathTree>, Fault>
    ensures { Gives result parser.new.words.now (many (comes Sign.Path) path_at parser.old.words.now) }
{
    let mut paths = Seq::new(parser.alloc);
    while parser.comes(Sign::Path) {
        let path = path(parser)?;
        paths.push(path)?;
    }
    Ok(paths)
}

#[tactic(auto, unfolding(crate::specs::StepReaders::step_at))]
fn step(parser: &mut Parser<'_>) -> Result<Boxed<StepTree>, Fault>
    ensures { Gives result parser.new.words.now (step_at parser.old.words.now) }
{
    let reads = reads(parser)?;
    let first = path(parser)?;
    let others = paths(parser)?;
    let step = StepTree {
        reads,
        first,
        others,
    };
    Ok(Boxed::new(parser.alloc, step)?)
}

/// The word `next` or `undo`, and its step, each statement up to its end.
#[tactic(auto, unfolding(crate::specs::StepReaders::side_at))]
pub fn side(parser: &mut Parser<'_>, sign: Sign) -> Result<Boxed<StepTree>, Fault>
    ensures { Gives result parser.new.words.now (side_at sign parser.old.words.now) }
{
    parser.sign(sign)?;
    parser.sign(Sign::End)?;
    step(parser)
}
