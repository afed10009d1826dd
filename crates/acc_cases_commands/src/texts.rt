//! Texts with a piece exchanged.
use std::alloc::{AllocError, Global};

/// A piece of a text, what stands in its place, and a piece that stands so often where that has an `@`.
#[derive(Clone, Copy)]
pub struct Exchange<'a> {
    old: &'a str,
    new: &'a str,
    piece: &'a str,
    count: u64,
}

/// The change that is written `OLD -> NEW` or `OLD -> NEW -> COUNT PIECE`.
pub fn change_of(text: &str) -> Option<Exchange<'_>> {
    let (old, rest) = text.split_once(" -> ")?;
    let Some((new, many)) = rest.split_once(" -> ") else {
        return Some(Exchange {
            old,
            new: rest,
            piece: "",
            count: 0,
        });
    };
    let (count, piece) = many.split_once(" ")?;
    Some(Exchange {
        old,
        new,
        piece,
        count: count.parse().ok()?,
    })
}

/// So many pieces, each with its number, from 0 on, in place of a `#`.
pub fn pieces(alloc: Global, piece: &str, count: u64) -> Result<String, AllocError> {
    let (before, after) = piece.split_once("#").unwrap_or((piece, ""));
    let numbered = before.len() < piece.len();
    let mut out = String::new(alloc);
    for number in 0..count {
        out.push_str(before)?;
        if numbered {
            write!(out, "{number}")?;
        }
        out.push_str(after)?;
    }
    Ok(out)
}

/// The text with the first of the old piece exchanged, if it has it.
pub fn changed(
    alloc: Global,
    text: &str,
    change: Exchange<'_>,
) -> Result<Option<String>, AllocError> {
    let Some((before, after)) = text.split_once(change.old) else {
        return Ok(None);
    };
    let pieces = pieces(alloc, change.piece, change.count)?;
    let new = change.new.replace(alloc, "@", pieces.as_str())?;
    Ok(Some(format!(in alloc; "{before}{new}{after}")?))
}

/// The text with a line feed for each `\n`.
pub fn with_feeds(alloc: Global, text: &str) -> Result<String, AllocError> {
    text.replace(alloc, "\\n", "\n")
}

/// The first word, and what stands behind the space behind it.
pub fn first_word(text: &str) -> (&str, &str) {
    text.split_once(" ").unwrap_or((text, ""))
}

/// Whether the text has that line.
pub fn has_line(text: &str, line: &str) -> bool {
    for other in text.split('\n') {
        if other == line {
            return true;
        }
    }
    false
}

/// The numbers with commas between them; a `-` is none.
pub fn numbers(alloc: Global, text: &str) -> Result<Vec<u64>, AllocError> {
    let mut numbers = Vec::new(alloc);
    for word in text.split(',') {
        if let Ok(number) = word.parse() {
            numbers.push(number)?;
        }
    }
    Ok(numbers)
}
