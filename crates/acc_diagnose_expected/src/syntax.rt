//! The word with which no design goes on, and what could stand there.
use crate::around::{Neighbours, around_at};
use crate::bytes::{bad_byte, push_byte_hint};
use crate::mistakes::push_mending;
use crate::wanted::{Alternatives, could_stand};
use acc_base::sequences::Seq;
use acc_diagnose_spot::{bytes_of, line_spot, spot_at};
use acc_diagnose_words::{Spot, line_at, push_quoted};
use acc_lex::texts::words;
use acc_lex::words::Word;
use acc_lex::{Kind, LexError, Token, lex};
use acc_parse_designs::{SyntaxError, syntax};
use std::alloc::{AllocError, Global};

/// The number of the first of the words with which no design goes on, or how many there are.
fn good_words(alloc: Global, words: &[Word]) -> Result<usize, AllocError> {
    match syntax(alloc, words) {
        Ok(_) => Ok(words.len()),
        Err(SyntaxError::At(place)) => Ok(place),
        Err(SyntaxError::Memory) => Err(AllocError),
    }
}

/// The token of the word with this number, from 0: ends of empty statements are no words.
fn token_at(tokens: &[Token], number: usize) -> Option<Token> {
    let mut left = number;
    let mut is_empty = true;
    for token in tokens {
        let is_end = token.kind == Kind::End;
        if !(is_empty && is_end) {
            if left == 0 {
                return Some(*token);
            }
            left -= 1;
        }
        is_empty = is_end;
    }
    None
}

/// What was found, behind what could stand there.
fn push_found(spot: &mut Spot, found: &[u8]) {
    if found.is_empty() || found == b";".as_slice() || found == b"\n".as_slice() {
        spot.what.push(b", found the end of the statement")
    } else {
        spot.what.push(b", found ");
        push_quoted(&mut spot.what, found)
    }
}

/// Says what could stand at a spot.
fn push_wanted(spot: &mut Spot, wanted: &Alternatives) {
    if wanted.is_empty() {
        return spot.what.push(b"no design goes on here");
    }
    spot.what.push(b"expected ");
    wanted.push(&mut spot.what)
}

/// The spot of a word of a text with which no design goes on.
fn word_spot(
    alloc: Global,
    text: &[u8],
    tokens: &[Token],
    words: &mut Seq<Word>,
    place: usize,
    token: &Token,
) -> Result<Spot, AllocError> {
    words.truncate(place);
    let wanted = could_stand(alloc, words)?;
    let mut spot = spot_at(alloc, text, token);
    push_wanted(&mut spot, &wanted);
    push_found(&mut spot, bytes_of(text, token));
    let around = around_at(text, tokens, token.from);
    push_mending(&mut spot.hint, around, &wanted);
    Ok(spot)
}

/// The spot of a text that ends too early.
fn end_spot(
    alloc: Global,
    text: &[u8],
    tokens: &[Token],
    words: &mut Seq<Word>,
) -> Result<Spot, AllocError> {
    let wanted = could_stand(alloc, words)?;
    let mut spot = line_spot(alloc);
    spot.what.push(b"the design ends too early: ");
    push_wanted(&mut spot, &wanted);
    let around = around_at(text, tokens, u64::MAX);
    push_mending(&mut spot.hint, around, &wanted);
    Ok(spot)
}

/// Says that a byte can't stand at a spot.
fn push_byte(spot: &mut Spot, byte: u8) {
    if byte.is_ascii() {
        push_quoted(&mut spot.what, &[byte]);
    } else {
        spot.what.push(b"the byte ");
        spot.what.push_number(byte);
    }
    spot.what.push(b" can't stand here")
}

/// The spot of a byte of a line with which no text goes on; this stands round it.
fn byte_spot<'a>(alloc: Global, line: &'a [u8], around: Neighbours<'a>) -> Spot {
    let mut spot = line_spot(alloc);
    match bad_byte(line) {
        Some(place) if place < line.len() => {
            let around = around.with(&line[place..]);
            spot.column = place;
            push_byte(&mut spot, line[place]);
            push_byte_hint(alloc, &mut spot.hint, around, line[place]);
        }
        Some(_) | None => spot.what.push(b"this line is no words of the language"),
    }
    spot
}

/// The bytes of a text before the byte of a line with which no text goes on.
fn front_of<'a>(text: &'a [u8], line: u64) -> &'a [u8] {
    let bad = line_at(text, line);
    let mut left = line;
    let mut at = 0;
    for (i, byte) in text.iter().enumerate() {
        if left <= 1 {
            break;
        }
        if *byte == b'\n' {
            left -= 1;
            at = i + 1;
        }
    }
    let end = at.saturating_add(bad_byte(bad).unwrap_or(0));
    &text[..end.min(text.len())]
}

/// The words of a text, if it is words.
fn words_in(alloc: Global, text: &[u8]) -> Result<Option<Seq<Word>>, AllocError> {
    match words(alloc, text) {
        Ok(words) => Ok(Some(words)),
        Err(LexError::Bad(_)) => Ok(None),
        Err(LexError::Memory) => Err(AllocError),
    }
}

/// The spot of the first word of a text, which is words, with which no design goes on.
fn spot_in_words(alloc: Global, text: &[u8], tokens: &[Token]) -> Result<Option<Spot>, AllocError> {
    let Some(mut words) = words_in(alloc, text)? else {
        return Ok(None);
    };
    let place = good_words(alloc, words.as_slice())?;
    match token_at(tokens, place) {
        Some(token) => {
            let spot = word_spot(alloc, text, tokens, &mut words, place, &token)?;
            Ok(Some(spot))
        }
        None => Ok(Some(end_spot(alloc, text, tokens, &mut words)?)),
    }
}

/// The spot before the bad byte of a line, behind these bytes, if a word there is wrong.
fn spot_before(
    alloc: Global,
    front: &[u8],
    tokens: &[Token],
    line: u64,
) -> Result<Option<Spot>, AllocError> {
    let Some(words) = words_in(alloc, front)? else {
        return Ok(None);
    };
    let place = good_words(alloc, words.as_slice())?;
    match token_at(tokens, place) {
        Some(token) if token.from < token.to && token.line <= line => {
            spot_in_words(alloc, front, tokens)
        }
        _ => Ok(None),
    }
}

/// The spot on a refused line of a text with a byte on the line `bad` with which no text goes on: that byte, or a word before it.
fn spot_of_bad(alloc: Global, text: &[u8], line: u64, bad: u64) -> Result<Spot, AllocError> {
    let refused = line_at(text, line);
    let front = front_of(text, bad);
    let tokens = match lex(alloc, front) {
        Ok(tokens) => tokens,
        Err(LexError::Bad(_)) => return Ok(byte_spot(alloc, refused, Neighbours::nothing())),
        Err(LexError::Memory) => return Err(AllocError),
    };
    match spot_before(alloc, front, tokens.as_slice(), line)? {
        Some(spot) => Ok(spot),
        None => {
            let around = around_at(front, tokens.as_slice(), front.len() as u64);
            Ok(byte_spot(alloc, refused, around))
        }
    }
}

/// The spot on a refused line of a text that is none of the grammar: the first word, or byte, with which no design goes on, and
/// what could stand there.
pub fn syntax_spot(alloc: Global, text: &[u8], line: u64) -> Result<Spot, AllocError> {
    let tokens = match lex(alloc, text) {
        Ok(tokens) => tokens,
        Err(LexError::Bad(bad)) => return spot_of_bad(alloc, text, line, bad),
        Err(LexError::Memory) => return Err(AllocError),
    };
    match spot_in_words(alloc, text, tokens.as_slice())? {
        Some(spot) => Ok(spot),
        None => Ok(byte_spot(alloc, line_at(text, line), Neighbours::nothing())),
    }
}
