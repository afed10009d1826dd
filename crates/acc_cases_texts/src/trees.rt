//! Where the words of a text stop to be a design's.
use acc_lex::texts::words;
use acc_lex::words::{Sign, Word};
use acc_parse_designs::designs::{SyntaxError, syntax};
use std::alloc::{AllocError, Global};
use std::fmt::Write;

/// The word that a text without spaces spells; `;` spells the end of a statement.
fn word_of(alloc: Global, text: &str) -> Result<Word, AllocError> {
    match words(alloc, text.as_bytes()) {
        Ok(found) => Ok(
            found
                .into_vec()
                .into_iter()
                .next()
                .unwrap_or(Word::Sign(Sign::End)),
        ),
        Err(_) => Err(AllocError),
    }
}

/// The words of a text in which spaces part all words.
fn words_of(alloc: Global, text: &str) -> Result<Vec<Word>, AllocError> {
    let mut words = Vec::new(alloc);
    for word in text.split_whitespace() {
        words.push(word_of(alloc, word)?)?;
    }
    Ok(words)
}

/// Where the words stop, if they do.
fn stop_of(alloc: Global, words: &[Word]) -> Result<Option<usize>, AllocError> {
    match syntax(alloc, words) {
        Ok(_) => Ok(None),
        Err(SyntaxError::At(place)) => Ok(Some(place)),
        Err(SyntaxError::Memory) => Err(AllocError),
    }
}

/// Adds the words with a `^` before the one at that place.
fn add_marked(out: &mut String, text: &str, stop: Option<usize>) -> Result<(), AllocError> {
    for (i, word) in text.split_whitespace().enumerate() {
        if stop == Some(i) {
            write!(out, " ^")?;
        }
        write!(out, " {word}")?;
    }
    Ok(())
}

/// Adds the text with a `^` before the first word with which no design goes on.
pub fn tell_tree(alloc: Global, out: &mut String, text: &str) -> Result<(), AllocError> {
    let words = words_of(alloc, text)?;
    let stop = stop_of(alloc, words.as_slice())?;
    add_marked(out, text, stop)?;
    if stop == Some(words.len()) {
        write!(out, " ^")?;
    }
    Ok(())
}
