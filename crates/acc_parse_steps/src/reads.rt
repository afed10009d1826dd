//! Reading what a step reads, each up to its end.
ghost use Rattle.std.specs.Prelude.{◌≡◌};
ghost use Rattle.acc_grammar.specs.Readers.{many};
ghost use Rattle.acc_grammar.specs.Answers.{Gives};
ghost use Rattle.acc_parse_steps.specs.ReadReaders.{assigned_at, row_read_at, cell_read_at, let_at, get_at, has_at, count_at, sum_read_at};
ghost use Rattle.acc_parse_steps.specs.ReadReaders.{least_at, greatest_at, take_at, mul_at, div_at, read_at, starts_read};

use acc_base::sequences::Seq;
use acc_grammar::faults::Fault;
use acc_lex::words::Sign;
use acc_parse_syntax::parsers::Parser;
use acc_parse_syntax::trees::{Cell, Place, ReadTree, Variable};

/// The word, and the variable that is assigned.
#[tactic(auto, unfolding(crate::specs::ReadReaders::assigned_at))]
fn assigned(parser: &mut Parser<'_>, sign: Sign) -> Result<Variable, Fault>
    ensures { Gives result parser.new.words.now (assigned_at sign parser.old.words.now) }
{
    parser.sign(sign)?;
    let variable = parser.variable()?;
    parser.sign(Sign::Equal)?;
    Ok(variable)
}

/// The word, the variable that is assigned, and a row.
#[tactic(auto, unfolding(crate::specs::ReadReaders::row_read_at))]
fn row_read(parser: &mut Parser<'_>, sign: Sign) -> Result<(Variable, Place), Fault>
    ensures { Gives result parser.new.words.now (row_read_at sign parser.old.words.now) }
{
    let variable = assigned(parser, sign)?;
    let place = parser.place()?;
    parser.ended((variable, place))
}

/// The word, the variable that is assigned, and a column of a row.
#[tactic(auto, unfolding(crate::specs::ReadReaders::cell_read_at))]
fn cell_read(parser: &mut Parser<'_>, sign: Sign) -> Result<(Variable, Cell), Fault>
    ensures { Gives result parser.new.words.now (cell_read_at sign parser.old.words.now) }
{
    let variable = assigned(parser, sign)?;
    let cell = parser.cell()?;
    parser.ended((variable, cell))
}

#[tactic(auto, unfolding(crate::specs::ReadReaders::let_at))]
fn let_read(parser: &mut Parser<'_>) -> Result<ReadTree, Fault>
    ensures { Gives result parser.new.words.now (let_at parser.old.words.now) }
{
    let variable = assigned(parser, Sign::Let)?;
    let value = parser.sum()?;
    parser.ended(ReadTree::Let(variable, value))
}

#[tactic(auto, unfolding(crate::specs::ReadReaders::get_at))]
fn get_read(parser: &mut Parser<'_>) -> Result<ReadTree, Fault>
    ensures { Gives result parser.new.words.now (get_at parser.old.words.now) }
{
    let (variable, cell) = cell_read(parser, Sign::Get)?;
    Ok(ReadTree::Get(variable, cell))
}

#[tactic(auto, unfolding(crate::specs::ReadReaders::has_at))]
fn has_read(parser: &mut Parser<'_>) -> Result<ReadTree, Fault>
    ensures { Gives result parser.new.words.now (has_at parser.old.words.now) }
{
    let (variable, place) = row_read(parser, Sign::Has)?;
    Ok(ReadTree::Has(variable, place))
}

#[tactic(auto, unfolding(crate::specs::ReadReaders::count_at))]
fn count_read(parser: &mut Parser<'_>) -> Result<ReadTree, Fault>
    ensures { Gives result parser.new.words.now (count_at parser.old.words.now) }
{
    let (variable, place) = row_read(parser, Sign::Count)?;
    Ok(ReadTree::Count(variable, place))
}

#[tactic(auto, unfolding(crate::specs::ReadReaders::sum_read_at))]
fn sum_read(parser: &mut Parser<'_>) -> Result<ReadTree, Fault>
    ensures { Gives result parser.new.words.now (sum_read_at parser.old.words.now) }
{
    let (variable, cell) = cell_read(parser, Sign::Sum)?;
    Ok(ReadTree::Sum(variable, cell))
}

#[tactic(auto, unfolding(crate::specs::ReadReaders::least_at))]
fn least_read(parser: &mut Parser<'_>) -> Result<ReadTree, Fault>
    ensures { Gives result parser.new.words.now (least_at parser.old.words.now) }
{
    let (variable, place) = row_read(parser, Sign::Least)?;
    Ok(ReadTree::Least(variable, place))
}

#[tactic(auto, unfolding(crate::specs::ReadReaders::greatest_at))]
fn greatest_read(parser: &mut Parser<'_>) -> Result<ReadTree, Fault>
    ensures { Gives result parser.new.words.now (greatest_at parser.old.words.now) }
{
    let (variable, place) = row_read(parser, Sign::Greatest)?;
    Ok(ReadTree::Greatest(variable, place))
}

#[tactic(auto, unfolding(crate::specs::ReadReaders::take_at))]
fn take_read(parser: &mut Parser<'_>) -> Result<ReadTree, Fault>
    ensures { Gives result parser.new.words.now (take_at parser.old.words.now) }
{
    parser.sign(Sign::Take)?;
    let variable = parser.variable()?;
    parser.ended(ReadTree::Take(variable))
}

#[tactic(auto, unfolding(crate::specs::ReadReaders::mul_at))]
fn mul_read(parser: &mut Parser<'_>) -> Result<ReadTree, Fault>
    ensures { Gives result parser.new.words.now (mul_at parser.old.words.now) }
{
    let variable = assigned(parser, Sign::Mul)?;
    let left = parser.variable()?;
    let right = parser.variable()?;
    parser.ended(ReadTree::Mul(variable, left, right))
}

#[tactic(auto, unfolding(crate::specs::ReadReaders::div_at))]
fn div_read(parser: &mut Parser<'_>) -> Result<ReadTree, Fault>
    ensures { Gives result parser.new.words.now (div_at parser.old.words.now) }
{
    let variable = assigned(parser, Sign::Div)?;
    let divided = parser.variable()?;
    let divisor = parser.number()?;
    parser.ended(ReadTree::Div(variable, divided, divisor))
}

#[tactic(auto, unfolding(crate::specs::ReadReaders::read_at))]
fn read(parser: &mut Parser<'_>) -> Result<ReadTree, Fault>
    ensures { Gives result parser.new.words.now (read_at parser.old.words.now) }
{
    if parser.comes(Sign::Let) {
        let_read(parser)
    } else if parser.comes(Sign::Get) {
        get_read(parser)
    } else if parser.comes(Sign::Has) {
        has_read(parser)
    } else if parser.comes(Sign::Count) {
        count_read(parser)
    } else if parser.comes(Sign::Sum) {
        sum_read(parser)
    } else if parser.comes(Sign::Least) {
        least_read(parser)
    } else if parser.comes(Sign::Greatest) {
        greatest_read(parser)
    } else if parser.comes(Sign::Take) {
        take_read(parser)
    } else if parser.comes(Sign::Mul) {
        mul_read(parser)
    } else {
        div_read(parser)
    }
}

fn starts_read(parser: &Parser<'_>) -> bool
    ensures { result ≡ starts_read parser.now.words.now }
{
    parser.comes(Sign::Let)
        || parser.comes(Sign::Get)
        || parser.comes(Sign::Has)
        || parser.comes(Sign::Count)
        || parser.comes(Sign::Sum)
        || parser.comes(Sign::Least)
        || parser.comes(Sign::Greatest)
        || parser.comes(Sign::Take)
        || parser.comes(Sign::Mul)
        || parser.comes(Sign::Div)
}

pub(crate) fn reads(parser: &mut Parser<'_>) -> Result<Seq<ReadTree>, Fault>
    ensures { Gives result parser.new.words.now (many starts_read read_at parser.old.words.now) }
{
    let mut reads = Seq::new(parser.alloc);
    while starts_read(parser) {
        let read = read(parser)?;
        reads.push(read)?;
    }
    Ok(reads)
}
