//! The line on which a statement of a text ends, and the first lines of a text.
use crate::words::add_text;
use acc_lex::texts::words;
use acc_parse_statements::lines::first_lines;
use acc_parse_statements::{Line, ends, line_of};
use std::alloc::{AllocError, Global};
use std::fmt::Write;

/// Where the statement ends, if there is one of the number.
fn found_line(alloc: Global, text: &[u8], n: u64) -> Result<Option<Line>, AllocError> {
    let Ok(found) = words(alloc, text) else {
        return Ok(None);
    };
    if n < ends(found.as_slice()) as u64 {
        Ok(Some(line_of(alloc, text, n)?))
    } else {
        Ok(None)
    }
}

/// Adds the line on which a statement ends, and the numbers of those that end there.
pub fn tell_line(alloc: Global, out: &mut String, n: u64, text: &[u8]) -> Result<(), AllocError> {
    match found_line(alloc, text, n)? {
        Some(line) => write!(out, " line {} {}..{}", line.number, line.from, line.to),
        None => write!(out, " none"),
    }
}

/// Adds so many first lines of a text.
pub fn tell_lines(out: &mut String, n: u64, text: &[u8]) -> Result<(), AllocError> {
    add_text(out, first_lines(text, n))
}
