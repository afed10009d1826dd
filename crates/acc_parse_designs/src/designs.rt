//! Reading points, types and whole designs.
ghost use Rattle.std.specs.Prelude.{◌≡◌, IsOkUnless};
ghost use Rattle.acc_grammar.specs.Readers.{many};
ghost use Rattle.acc_grammar.specs.Answers.{Gives};
ghost use Rattle.acc_parse_syntax.specs.declared.trees.DesignTree.{DesignTree};
ghost use Rattle.acc_parse_syntax.specs.Spelling.{spelled_design};
ghost use Rattle.acc_parse_designs.specs.Texts.{Answers, IsSpelling};
ghost use Rattle.acc_parse_syntax.specs.WordReaders.{comes};
ghost use Rattle.acc_parse_designs.specs.DesignReaders.{point_head_at, point_at, limit_at, type_head_at, type_names_at};
ghost use Rattle.acc_parse_designs.specs.DesignReaders.{type_clauses_at, type_points_at, type_at, design_at};

use crate::entries::{entries, hints};
use crate::own_words::words_before_stray_self;
use acc_base::sequences::{Seq, Text};
use acc_grammar::faults::Fault;
use acc_lex::words::{Sign, Word};
use acc_parse_steps::side;
use acc_parse_syntax::parsers::Parser;
use acc_parse_syntax::trees::{ClauseTree, DesignTree, Names, PointTree, Sum, TypeTree};
use std::alloc::Global;

/// Why there is no tree of some words.
#[derive(Drop)]
pub enum SyntaxError {
    /// There was no memory for the tree.
    Memory,
    /// The words are no design: this is the place, from 0, of the first word with which no design goes on,
    /// or the number of the words, where they only end too early.
    At(usize),
}

/// What a point begins with.
#[derive(Drop)]
struct PointHead {
    name: Text,
    variant: Option<Sum>,
}

/// What a type begins with.
#[derive(Drop)]
struct TypeHead {
    name: Text,
    params: Seq<Text>,
    limit: u64,
}

/// What a type names beside its parameters.
#[derive(Drop)]
struct TypeNames {
    returns: Option<Names>,
    locals: Option<Names>,
}

/// What a commit of a type ensures, and what a compensation repairs.
#[derive(Drop)]
struct TypeClauses {
    ensured: Seq<ClauseTree>,
    repaired: Seq<ClauseTree>,
}

/// The points of a type.
#[derive(Drop)]
struct TypePoints {
    first: PointTree,
    others: Seq<PointTree>,
}

#[tactic(auto, unfolding(crate::specs::DesignReaders::point_head_at))]
fn point_head(parser: &mut Parser<'_>) -> Result<PointHead, Fault>
    ensures { Gives result parser.new.words.now (point_head_at parser.old.words.now) }
{
    parser.sign(Sign::Point)?;
    let name = parser.name()?;
    parser.sign(Sign::End)?;
    let variant = parser.variant()?;
    Ok(PointHead { name, variant })
}

#[tactic(auto, unfolding(crate::specs::DesignReaders::point_at))]
fn point(parser: &mut Parser<'_>) -> Result<PointTree, Fault>
    ensures { Gives result parser.new.words.now (point_at parser.old.words.now) }
{
    let head = point_head(parser)?;
    let holds = parser.clauses(Sign::Holds)?;
    let next = side(parser, Sign::Next)?;
    let undo = side(parser, Sign::Undo)?;
    Ok(PointTree {
        name: head.name,
        variant: head.variant,
        holds,
        next,
        undo,
    })
}

fn points(parser: &mut Parser<'_>) -> Result<Seq<PointTree>, Fault>
    ensures { Gives result parser.new.words.now (many (comes Sign.Point) point_at parser.old.words.now) }
{
    let mut points = Seq::new(parser.alloc);
    while parser.comes(Sign::Point) {
        let point = point(parser)?;
        points.push(point)?;
    }
    Ok(points)
}

#[tactic(auto, unfolding(crate::specs::DesignReaders::limit_at))]
fn limit(parser: &mut Parser<'_>) -> Result<u64, Fault>
    ensures { Gives result parser.new.words.now (limit_at parser.old.words.now) }
{
    parser.sign(Sign::Limit)?;
    let limit = parser.number()?;
    parser.ended(limit)
}

#[tactic(auto, unfolding(crate::specs::DesignReaders::type_head_at))]
fn type_head(parser: &mut Parser<'_>) -> Result<TypeHead, Fault>
    ensures { Gives result parser.new.words.now (type_head_at parser.old.words.now) }
{
    parser.sign(Sign::Type)?;
    let name = parser.name()?;
    let params = parser.names()?;
    parser.sign(Sign::End)?;
    let limit = limit(parser)?;
    Ok(TypeHead {
        name,
        params,
        limit,
    })
}

#[tactic(auto, unfolding(crate::specs::DesignReaders::type_names_at))]
fn type_names(parser: &mut Parser<'_>) -> Result<TypeNames, Fault>
    ensures { Gives result parser.new.words.now (type_names_at parser.old.words.now) }
{
    let returns = parser.names_statement(Sign::Returns)?;
    let locals = parser.names_statement(Sign::Local)?;
    Ok(TypeNames { returns, locals })
}

#[tactic(auto, unfolding(crate::specs::DesignReaders::type_clauses_at))]
fn type_clauses(parser: &mut Parser<'_>) -> Result<TypeClauses, Fault>
    ensures { Gives result parser.new.words.now (type_clauses_at parser.old.words.now) }
{
    let ensured = parser.clauses(Sign::Ensures)?;
    let repaired = parser.clauses(Sign::Repairs)?;
    Ok(TypeClauses { ensured, repaired })
}

#[tactic(auto, unfolding(crate::specs::DesignReaders::type_points_at))]
fn type_points(parser: &mut Parser<'_>) -> Result<TypePoints, Fault>
    ensures { Gives result parser.new.words.now (type_points_at parser.old.words.now) }
{
    let first = point(parser)?;
    let others = points(parser)?;
    Ok(TypePoints { first, others })
}

#[tactic(auto, unfolding(crate::specs::DesignReaders::type_at))]
fn type_tree(parser: &mut Parser<'_>) -> Result<TypeTree, Fault>
    ensures { Gives result parser.new.words.now (type_at parser.old.words.now) }
{
    let head = type_head(parser)?;
    let names = type_names(parser)?;
    let clauses = type_clauses(parser)?;
    let points = type_points(parser)?;
    Ok(TypeTree {
        name: head.name,
        params: head.params,
        limit: head.limit,
        returns: names.returns,
        locals: names.locals,
        ensured: clauses.ensured,
        repaired: clauses.repaired,
        first: points.first,
        others: points.others,
    })
}

fn types(parser: &mut Parser<'_>) -> Result<Seq<TypeTree>, Fault>
    ensures { Gives result parser.new.words.now (many (comes Sign.Type) type_at parser.old.words.now) }
{
    let mut types = Seq::new(parser.alloc);
    while parser.comes(Sign::Type) {
        let tree = type_tree(parser)?;
        types.push(tree)?;
    }
    Ok(types)
}

#[tactic(auto, unfolding(crate::specs::DesignReaders::design_at))]
fn design(parser: &mut Parser<'_>) -> Result<DesignTree, Fault>
    ensures { Gives result parser.new.words.now (design_at parser.old.words.now) }
{
    let tables = parser.tables()?;
    let always = parser.clauses(Sign::Always)?;
    let types = types(parser)?;
    let entries = entries(parser)?;
    let hints = hints(parser)?;
    parser.end()?;
    Ok(DesignTree {
        tables,
        always,
        types,
        entries,
        hints,
    })
}

/// The tree of a design's words, in time linear in their number and in the bytes of the names.
#[tactic(auto, using(crate::proofs::WholeLaws::one_tree))]
pub fn syntax(alloc: Global, words: &[Word]) -> Result<DesignTree, SyntaxError>
    // The tree is spelled by the words; a place is that of the first word with which no design goes on.
    ensures answers { Answers words.now result }
    // No other tree is spelled by the same words.
    ensures unique { (t u : DesignTree) → spelled_design t ≡ spelled_design u → t ≡ u }
    // What is spelled by some tree is answered with a tree, unless memory runs out.
    ensures only { (t : DesignTree) → IsSpelling words.now t → IsOkUnless result SyntaxError.Memory }
{
    let end = words_before_stray_self(words);
    let mut parser = Parser {
        alloc,
        words: &words[..end],
    };
    match design(&mut parser) {
        Ok(_) if end < words.len() => Err(SyntaxError::At(end)),
        Ok(design) => Ok(design),
        Err(Fault::Memory) => Err(SyntaxError::Memory),
        Err(Fault::Syntax) => Err(SyntaxError::At(end - parser.words.len())),
    }
}
