//! Terms that are collected.
ghost use Rattle.std.specs.Prelude.{◌≡◌, ◌==◌, All, IfOk};
ghost use Rattle.acc_base.specs.UnknownEquality.{unknown_eq};
ghost use Rattle.acc_terms.specs.Parts.{IsTermSized};
ghost use Rattle.acc_terms.specs.Collected.{collected};

use crate::printed::push_term;
use crate::spelled::{parted, piece, unknown};
use acc_base::forms::Unknown;
use acc_base::sequences::Seq;
use acc_terms::{Part, Terms, collected, difference};
use std::alloc::{AllocError, Global};
use std::fmt::Write;

/// A term of something, or a constant.
fn part<K>(of: Option<K>, number: i64) -> Part<K>
    ensures { IsTermSized result }
{
    Part {
        of,
        number: i128::from(number),
    }
}

/// Terms of variables.
fn variables(alloc: Global, words: &str) -> Result<Seq<Part<u32>>, AllocError>
    ensures { IfOk result (λ ps. All IsTermSized ps) }
{
    let mut parts = Seq::new(alloc);
    for word in words.split(' ') {
        let (of, number) = piece(word);
        parts.push(part(of, number))?;
    }
    Ok(parts)
}

/// A term of an unknown.
fn term(alloc: Global, word: &str) -> Result<Part<Unknown>, AllocError>
    ensures { IfOk result IsTermSized }
{
    let (number, of) = parted(word, "*");
    let of = unknown(alloc, of)?;
    Ok(part(Some(of), number.parse().unwrap_or(0)))
}

/// Terms of unknowns.
fn unknowns(alloc: Global, words: &str) -> Result<Seq<Part<Unknown>>, AllocError>
    ensures { IfOk result (λ ps. All IsTermSized ps) }
{
    let mut parts = Seq::new(alloc);
    for word in words.split(' ') {
        parts.push(term(alloc, word)?)?;
    }
    Ok(parts)
}

/// What a caller knows of collected terms of variables.
fn collected_variables(alloc: Global, parts: &[Part<u32>]) -> Result<Terms<u32>, AllocError>
    requires { All IsTermSized parts.now }
    ensures { IfOk result (λ t. t.terms ≡ collected ◌==◌ parts.now) }
{
    collected(alloc, parts)
}

/// What a caller knows of collected terms of unknowns.
fn collected_unknowns(alloc: Global, parts: &[Part<Unknown>]) -> Result<Terms<Unknown>, AllocError>
    requires { All IsTermSized parts.now }
    ensures { IfOk result (λ t. t.terms ≡ collected unknown_eq parts.now) }
{
    collected(alloc, parts)
}

fn push_variables(out: &mut String, terms: &Terms<u32>) -> Result<(), AllocError> {
    for (variable, number) in terms.terms.as_slice() {
        write!(out, "{number}*v{variable} ")?;
    }
    let constant = terms.constant;
    write!(out, "{constant}")
}

fn push_unknowns(out: &mut String, terms: &Terms<Unknown>) -> Result<(), AllocError> {
    for (unknown, number) in terms.terms.as_slice() {
        push_term(out, unknown, *number)?;
    }
    let constant = terms.constant;
    write!(out, "{constant}")
}

/// Pushes what terms of variables are collected to.
fn push_parts(alloc: Global, out: &mut String, parts: &[Part<u32>]) -> Result<(), AllocError>
    requires { All IsTermSized parts.now }
{
    push_variables(out, &collected_variables(alloc, parts)?)
}

/// Pushes the collected terms of variables.
pub fn push_collected(alloc: Global, out: &mut String, words: &str) -> Result<(), AllocError> {
    let parts = variables(alloc, words)?;
    push_parts(alloc, out, parts.as_slice())
}

/// The terms of the left side, and those of the right side with their signs changed.
fn sides(alloc: Global, words: &str) -> Result<Seq<Part<u32>>, AllocError>
    ensures { IfOk result (λ ps. All IsTermSized ps) }
{
    let (left, right) = parted(words, " minus ");
    difference(variables(alloc, left)?, variables(alloc, right)?)
}

/// Pushes the number of the terms on both sides, and the collected terms of the difference.
pub fn push_difference(alloc: Global, out: &mut String, words: &str) -> Result<(), AllocError> {
    let parts = sides(alloc, words)?;
    let count = parts.len();
    write!(out, "{count} terms, ")?;
    push_parts(alloc, out, parts.as_slice())
}

/// Pushes the collected terms of unknowns.
pub fn push_collected_unknowns(
    alloc: Global,
    out: &mut String,
    words: &str,
) -> Result<(), AllocError> {
    let parts = unknowns(alloc, words)?;
    push_unknowns(out, &collected_unknowns(alloc, parts.as_slice())?)
}
