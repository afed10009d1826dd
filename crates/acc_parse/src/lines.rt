//! The line on which a text stops being the front of a design's text.
ghost use Rattle.std.specs.Prelude.{◌≡◌, List, length, IfOk, MatchOption};
ghost use Rattle.acc_lex.specs.declared.words.Word.{Word as WordValue};
ghost use Rattle.acc_lex.specs.Texts.{IsLexed};
ghost use Rattle.acc_parse.specs.Texts.{IsGrammatical};
ghost use Rattle.acc_parse.specs.Syntax.{IsWrongAt};
ghost use Rattle.acc_parse.specs.GoodWords.{AreGood, Judges};

use acc_lex::lexers::LexError;
use acc_lex::texts::words;
use acc_parse_designs::designs::{SyntaxError, syntax};
use acc_parse_statements::lines::split_line;
use std::alloc::{AllocError, Global};

/// How many words a line has, if it is words.
fn words_len(alloc: Global, line: &[u8]) -> Result<Option<usize>, AllocError>
    ensures { IfOk result (λ len. MatchOption len ((words : List WordValue) → ¬ IsLexed line.now words)
        (λ n. (words : List WordValue) × IsLexed line.now words × (n ≡ length words))) }
{
    match words(alloc, line) {
        Ok(found) => Ok(Some(found.len())),
        Err(LexError::Bad(_)) => Ok(None),
        Err(LexError::Memory) => Err(AllocError),
    }
}

/// With how many of a text's words a design goes on.
pub fn good_words(alloc: Global, text: &[u8]) -> Result<usize, AllocError>
    ensures { IfOk result (λ good. (words : List WordValue) → IsLexed text.now words → AreGood words good) }
{
    match words(alloc, text) {
        Ok(found) => match syntax(alloc, found.as_slice()) {
            Ok(_) => Ok(found.len()),
            Err(SyntaxError::At(place)) => Ok(place),
            Err(SyntaxError::Memory) => Err(AllocError),
        },
        Err(LexError::Bad(_)) => Ok(0),
        Err(LexError::Memory) => Err(AllocError),
    }
}

/// The line on which a text that is not of the grammar goes wrong, counted from 1: the first that is no
/// words, or that has a word behind so many good ones.
pub fn wrong_line(alloc: Global, text: &[u8], good: usize) -> Result<u64, AllocError>
    requires wrong { ¬ IsGrammatical text.now }
    requires judged { Judges text.now good }
    ensures { IfOk result (IsWrongAt text.now) }
{
    let mut rest = text;
    let mut left = good;
    let mut line = 1;
    while let Some((first, behind)) = split_line(rest) {
        match words_len(alloc, first)? {
            Some(len) if len <= left => left -= len,
            _ => return Ok(line),
        }
        rest = behind;
        line += 1;
    }
    Ok(line)
}
