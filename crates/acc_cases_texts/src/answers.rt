//! The calls by name.
use crate::cases::{bytes_of, number};
use crate::designs::{TreeQuestion, tell_design};
use crate::statements::{tell_line, tell_lines};
use crate::trees::tell_tree;
use crate::words::{tell_tokens, tell_words};
use std::alloc::{AllocError, Global};
use std::fmt::Write;

/// The limits that are asked for: of two numbers of statements the lowest on those, else the first fault.
fn limits(words: &str) -> TreeQuestion {
    match words.split_once(' ') {
        Some((from, to)) => TreeQuestion::LowestOn(number(from), number(to)),
        None => TreeQuestion::FirstFault,
    }
}

/// Adds what a call of a design's tree answers of a text.
fn tell_of_tree(
    alloc: Global,
    out: &mut String,
    name: &str,
    rest: &str,
    text: &[u8],
) -> Result<(), AllocError> {
    match name {
        "limit" => tell_design(alloc, out, limits(rest), text),
        "meaning" => tell_design(alloc, out, TreeQuestion::Meaning, text),
        _ => write!(out, " no call"),
    }
}

/// Adds what the call answers of a text.
fn tell(alloc: Global, out: &mut String, call: &str, text: &[u8]) -> Result<(), AllocError> {
    let (name, rest) = call.split_once(' ').unwrap_or((call, ""));
    match name {
        "tokens" => tell_tokens(alloc, out, text),
        "words" => tell_words(alloc, out, text),
        "statement" => tell_line(alloc, out, number(rest), text),
        "lines" => tell_lines(out, number(rest), text),
        _ => tell_of_tree(alloc, out, name, rest, text),
    }
}

/// Adds what the call answers of the text that a case names.
fn tell_case(
    alloc: Global,
    out: &mut String,
    base: &str,
    call: &str,
    case: &str,
) -> Result<(), AllocError> {
    let text = bytes_of(alloc, base, case)?;
    tell(alloc, out, call, text.as_slice())
}

/// Takes another base.
fn take(base: &mut String, text: &str) -> Result<(), AllocError> {
    base.clear();
    base.push_str(text)
}

/// Adds what the call of a line answers.
fn tell_line_of(alloc: Global, out: &mut String, base: &str, line: &str) -> Result<(), AllocError> {
    match line.split_once(": ") {
        Some(("tree", text)) => tell_tree(alloc, out, text),
        Some((call, case)) => tell_case(alloc, out, base, call, case),
        None => write!(out, " no call"),
    }
}

/// What the call of a line answers; none of a line that gives a new base.
pub fn answer(alloc: Global, base: &mut String, line: &str) -> Result<Option<String>, AllocError> {
    if let Some(text) = line.strip_prefix("base: ") {
        take(base, text)?;
        return Ok(None);
    }
    let mut out = String::new(alloc);
    tell_line_of(alloc, &mut out, base, line)?;
    let said = out.strip_prefix(' ').unwrap_or("");
    Ok(Some(String::from_str(alloc, said)?))
}
