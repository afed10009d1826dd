//! The tokens and the words of a text.
use acc_lex::lexers::{LexError, lex};
use acc_lex::texts::words;
use acc_lex::tokens::Token;
use acc_lex::words::Word;
use std::alloc::{AllocError, Global};
use std::fmt::Write;

fn add_token(out: &mut String, token: Token) -> Result<(), AllocError> {
    let (line, from, to, kind) = (token.line, token.from, token.to, token.kind);
    write!(out, " {line} {from}..{to} {kind:?},")
}

fn add_tokens(out: &mut String, tokens: &[Token]) -> Result<(), AllocError> {
    for token in tokens {
        add_token(out, *token)?;
    }
    Ok(())
}

/// Adds the text of some bytes between quotes.
pub fn add_text(out: &mut String, bytes: &[u8]) -> Result<(), AllocError> {
    match str::from_utf8(bytes) {
        Ok(text) => write!(out, " {text:?}"),
        Err(_) => write!(out, " {bytes:?}"),
    }
}

/// Adds a fixed word by its kind, a name between quotes, and a number.
fn add_word(out: &mut String, word: &Word) -> Result<(), AllocError> {
    match word {
        Word::Sign(sign) => write!(out, " {sign:?}"),
        Word::Name(name) => add_text(out, name.as_slice()),
        Word::Number(n) => write!(out, " {n}"),
    }
}

fn add_words(out: &mut String, words: &[Word]) -> Result<(), AllocError> {
    for word in words {
        add_word(out, word)?;
    }
    Ok(())
}

fn add_error(out: &mut String, error: LexError) -> Result<(), AllocError> {
    match error {
        LexError::Bad(line) => write!(out, " bad line {line}"),
        LexError::Memory => Err(AllocError),
    }
}

/// Adds each token's line, place and kind, or the line that is refused.
pub fn tell_tokens(alloc: Global, out: &mut String, text: &[u8]) -> Result<(), AllocError> {
    match lex(alloc, text) {
        Ok(tokens) => add_tokens(out, tokens.as_slice()),
        Err(error) => add_error(out, error),
    }
}

/// Adds the words, or the line that is refused.
pub fn tell_words(alloc: Global, out: &mut String, text: &[u8]) -> Result<(), AllocError> {
    match words(alloc, text) {
        Ok(words) => add_words(out, words.as_slice()),
        Err(error) => add_error(out, error),
    }
}
