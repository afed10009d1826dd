//! The limits that a design's text passes, and what it stands for.
use acc_base::designs::{Entry, Hint, TxType};
use acc_base::forms::Lin;
use acc_lex::texts::words;
use acc_parse_designs::designs::syntax;
use acc_parse_limits::{Limit, first_fault, lowest_on};
use acc_parse_meaning::{Meaning, meaning_of};
use acc_parse_names::names_of;
use acc_parse_syntax::trees::DesignTree;
use std::alloc::{AllocError, Global};
use std::fmt::Write;

/// What is asked of a design's tree.
#[derive(Clone, Copy)]
pub enum TreeQuestion {
    FirstFault,
    LowestOn(u64, u64),
    Meaning,
}

fn add_limit(out: &mut String, limit: Option<Limit>) -> Result<(), AllocError> {
    match limit {
        Some(limit) => write!(out, " limit {} {limit:?}", limit.number()),
        None => write!(out, " none"),
    }
}

fn add_fault(out: &mut String, fault: Option<(u64, Limit)>) -> Result<(), AllocError> {
    match fault {
        Some((n, limit)) => {
            write!(out, " statement {n}")?;
            add_limit(out, Some(limit))
        }
        None => add_limit(out, None),
    }
}

fn add_value(out: &mut String, value: &Lin) -> Result<(), AllocError> {
    write!(out, " {:?} {}", value.coeffs.as_slice(), value.constant)
}

/// Adds what a type returns, its limit, how many points it has and the variant of its start.
fn add_type(out: &mut String, x: &TxType) -> Result<(), AllocError> {
    let points = x.points.as_slice();
    write!(
        out,
        " type {:?} {} {}",
        x.returns.as_slice(),
        x.limit,
        points.len()
    )?;
    match points.first() {
        Some(start) => add_value(out, &start.variant),
        None => Ok(()),
    }
}

fn add_entry(out: &mut String, entry: &Entry) -> Result<(), AllocError> {
    let pairs = entry.pairs.as_slice();
    let (held, step, side) = (entry.held.point, entry.step.point, entry.side);
    write!(out, ", entry {held} {step} {side:?} {pairs:?}")
}

fn add_hint(out: &mut String, hint: &Hint) -> Result<(), AllocError> {
    write!(out, ", hint {} {:?}", hint.at.point, hint.side)?;
    add_value(out, &hint.lin)
}

/// Adds the parts of the design and its first fault.
fn add_meaning(out: &mut String, meaning: &Meaning) -> Result<(), AllocError> {
    let design = &meaning.design;
    for x in design.types.as_slice() {
        add_type(out, x)?;
    }
    for entry in design.entries.as_slice() {
        add_entry(out, entry)?;
    }
    for hint in design.hints.as_slice() {
        add_hint(out, hint)?;
    }
    write!(out, ", {} {},", design.tables.len(), design.always.len())?;
    add_fault(out, meaning.first_fault)
}

fn tell_meaning(alloc: Global, out: &mut String, tree: &DesignTree) -> Result<(), AllocError> {
    let names = names_of(alloc, tree)?;
    let meaning = meaning_of(alloc, &names, tree)?;
    add_meaning(out, &meaning)
}

fn tell(
    alloc: Global,
    out: &mut String,
    question: TreeQuestion,
    tree: &DesignTree,
) -> Result<(), AllocError> {
    match question {
        TreeQuestion::FirstFault => add_fault(out, first_fault(tree)),
        TreeQuestion::LowestOn(from, to) => add_limit(out, lowest_on(tree, from, to)),
        TreeQuestion::Meaning => tell_meaning(alloc, out, tree),
    }
}

/// Adds what the tree of the text answers.
pub fn tell_design(
    alloc: Global,
    out: &mut String,
    question: TreeQuestion,
    text: &[u8],
) -> Result<(), AllocError> {
    let Ok(words) = words(alloc, text) else {
        return write!(out, " no words");
    };
    match syntax(alloc, words.as_slice()) {
        Ok(tree) => tell(alloc, out, question, &tree),
        Err(_) => write!(out, " no tree"),
    }
}
