//! What the words of a line spell.
use std::alloc::{AllocError, Global};

/// An answer of those words.
pub fn said(alloc: Global, words: &str) -> Result<String, AllocError> {
    String::from_str(alloc, words)
}

/// How a call ended that gives nothing back.
pub fn ended(alloc: Global, ended_well: bool) -> Result<String, AllocError> {
    said(alloc, if ended_well { "ok" } else { "failed" })
}

/// The first word, and what stands behind it.
pub fn split(words: &str) -> (&str, &str) {
    words.split_once(' ').unwrap_or((words, ""))
}

/// The number that a word spells; else one that no disk reaches.
pub fn number(word: &str) -> u64 {
    word.parse().unwrap_or(u64::MAX)
}

/// The numbers of a list with commas. A word that is no number gives one that no call has.
pub fn numbers(alloc: Global, list: &str) -> Result<Vec<u64>, AllocError> {
    list.split(',').map(number).collect(alloc)
}

/// The bytes of a word, and none for '-'.
pub fn bytes(word: &str) -> &[u8] {
    if word == "-" { b"" } else { word.as_bytes() }
}
