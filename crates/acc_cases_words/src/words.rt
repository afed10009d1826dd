//! What words spell.
use std::alloc::{AllocError, Global};
use std::fmt::Write;

/// An answer of those words.
pub fn said(alloc: Global, words: &str) -> Result<String, AllocError> {
    String::from_str(alloc, words)
}

/// What stands before the first mark, and what behind it.
pub fn parted<'a>(text: &'a str, mark: &str) -> (&'a str, &'a str) {
    text.split_once(mark).unwrap_or((text, ""))
}

/// The number that a word spells, and 0 where it spells none.
pub fn number(word: &str) -> u64 {
    word.parse().unwrap_or(0)
}

/// The same of a smaller number.
pub fn small(word: &str) -> u32 {
    word.parse().unwrap_or(0)
}

/// The numbers of a list; those that are none are left out.
pub fn list(alloc: Global, words: &str) -> Result<Vec<i64>, AllocError> {
    words
        .split(',')
        .filter_map(|word| word.parse().ok())
        .collect(alloc)
}

/// Pushes the lines of a text, with ` / ` between two.
pub fn push_lines(out: &mut String, text: &[u8]) -> Result<(), AllocError> {
    let text = str::from_utf8(text.trim_ascii_end()).unwrap_or("no text");
    let mut first = true;
    for line in text.split('\n') {
        let mark = if first { "" } else { " / " };
        write!(out, "{mark}{line}")?;
        first = false;
    }
    Ok(())
}
