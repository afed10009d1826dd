//! The word of a script's line that is refused.
use crate::numbers::{is_integer, is_numeral, is_within, value_of};
use crate::statements::line_spot;
use acc_base::bounds::{LARGEST_NUMBER, LATEST_ASK, LONGEST_TAPE, MOST_CALLS};
use acc_base::designs::{Design, TxType};
use acc_diagnose_words::{Spot, push_quoted, push_with};
use acc_page::Page;
use std::alloc::Global;

/// The word behind which a line's tape stands.
const TAPE: &[u8] = b"|";
/// The word behind which stands after how many steps a call is asked to turn.
const ASK: &[u8] = b"@";

/// A word of a line.
#[derive(Clone, Copy)]
pub struct LineWord<'a> {
    /// Where it begins, from 0.
    pub at: usize,
    pub bytes: &'a [u8],
}

/// The first word of a line from this place on.
pub fn next_word(line: &[u8], from: usize) -> Option<LineWord> {
    let from = from.min(line.len());
    let spaces = line[from..].iter().take_while(|b| **b == b' ').count();
    let at = from.saturating_add(spaces).min(line.len());
    let rest = &line[at..];
    let len = rest.iter().take_while(|b| **b != b' ').count();
    let bytes = &rest[..len.min(rest.len())];
    if bytes.is_empty() {
        return None;
    }
    Some(LineWord { at, bytes })
}

/// Where a word ends.
fn end_of(word: LineWord) -> usize {
    word.at.saturating_add(word.bytes.len())
}

/// Marks a word.
pub fn mark(spot: &mut Spot, word: LineWord) {
    spot.column = word.at;
    spot.width = word.bytes.len();
}

/// The type of a name.
fn type_named<'a>(d: &'a Design, name: &[u8]) -> Option<&'a TxType> {
    d.types
        .as_slice()
        .iter()
        .find(|ty| ty.name.as_slice() == name)
}

/// What the line of a type's call is, in words.
fn push_form(out: &mut Page, ty: &TxType) {
    out.push(b"a call is `");
    out.push(ty.name.as_slice());
    for name in ty.locals.as_slice().iter().take(ty.params as usize) {
        out.push(b" ");
        out.push(name.as_slice());
    }
    out.push(b"`, and behind that `| TAPE` and `@ STEPS`, where they are wanted")
}

/// Says that a word isn't the number that is wanted.
fn push_number_fault(spot: &mut Spot, word: LineWord) {
    mark(spot, word);
    push_quoted(&mut spot.what, word.bytes);
    if is_integer(word.bytes) {
        spot.what.push(b" is out of range");
        push_with(
            &mut spot.hint,
            b"numbers are within ",
            LARGEST_NUMBER,
            b" of 0",
        )
    } else {
        spot.what.push(b" is no whole number");
        spot.hint.push(
            b"a number is written in digits, without a plus and without leading zeros, and with a `-` where it is below 0",
        )
    }
}

/// Whether a word is a number that a call may have.
fn is_value(word: LineWord) -> bool {
    is_integer(word.bytes) && is_within(word.bytes)
}

/// Whether a word begins a tape or an asked abort.
fn is_part(word: LineWord) -> bool {
    word.bytes == TAPE || word.bytes == ASK
}

/// Where the parameters end, or what is wrong with them; the spot is said then.
fn parameters_end(spot: &mut Spot, line: &[u8], ty: &TxType, from: usize) -> Option<usize> {
    let mut at = from;
    for number in 0..ty.params {
        match next_word(line, at) {
            Some(word) if is_value(word) => at = end_of(word),
            Some(word) if !is_part(word) => {
                push_number_fault(spot, word);
                return None;
            }
            _ => {
                spot.column = at;
                push_count_fault(spot, ty, u64::from(number));
                return None;
            }
        }
    }
    Some(at)
}

/// Says that there are too few parameters, or too many.
fn push_count_fault(spot: &mut Spot, ty: &TxType, found: u64) {
    push_quoted(&mut spot.what, ty.name.as_slice());
    spot.what.push(b" has ");
    spot.what.push_number(ty.params);
    if ty.params == 1 {
        spot.what.push(b" parameter");
    } else {
        spot.what.push(b" parameters");
    }
    spot.what.push(b", the line gives ");
    spot.what.push_number(found);
    push_form(&mut spot.hint, ty)
}

/// Where the tape ends, or what is wrong with it; the spot is said then.
fn tape_end(spot: &mut Spot, line: &[u8], from: usize) -> Option<usize> {
    let mut at = from;
    for _ in 0..=LONGEST_TAPE {
        match next_word(line, at) {
            Some(word) if is_value(word) => at = end_of(word),
            Some(word) if word.bytes != ASK => {
                push_number_fault(spot, word);
                return None;
            }
            _ => return Some(at),
        }
    }
    spot.column = from;
    push_with(
        &mut spot.what,
        b"a tape has at most ",
        LONGEST_TAPE,
        b" numbers",
    );
    None
}

/// Says how many lines a script has.
fn push_most_calls(spot: &mut Spot) {
    push_with(
        &mut spot.what,
        b"a script has at most ",
        MOST_CALLS,
        b" transactions",
    )
}

/// Says what is wrong behind the `@` of a line.
fn push_ask_fault(spot: &mut Spot, line: &[u8], from: usize) {
    spot.column = from;
    push_with(
        &mut spot.hint,
        b"behind `@` stands one number up to ",
        LATEST_ASK,
        b", the number of steps after which the transaction is asked to turn, and nothing more",
    );
    let Some(word) = next_word(line, from) else {
        return spot.what.push(b"a number is missing behind `@`");
    };
    mark(spot, word);
    let is_steps = is_numeral(word.bytes) && value_of(word.bytes) <= LATEST_ASK as u64;
    if !is_steps {
        push_quoted(&mut spot.what, word.bytes);
        return spot.what.push(b" is no number of steps");
    }
    match next_word(line, end_of(word)) {
        Some(more) => {
            mark(spot, more);
            push_quoted(&mut spot.what, more.bytes);
            spot.what
                .push(b" is too much: a line ends behind the number of `@`")
        }
        None => push_most_calls(spot),
    }
}

/// Says what is wrong behind the parameters of a line.
fn push_rest_fault(spot: &mut Spot, line: &[u8], ty: &TxType, from: usize) {
    let mut at = from;
    if let Some(word) = next_word(line, at) {
        if word.bytes == TAPE {
            match tape_end(spot, line, end_of(word)) {
                Some(end) => at = end,
                None => return,
            }
        }
    }
    match next_word(line, at) {
        Some(word) if word.bytes == ASK => push_ask_fault(spot, line, end_of(word)),
        Some(word) => {
            mark(spot, word);
            push_quoted(&mut spot.what, word.bytes);
            spot.what.push(b" is too much");
            push_form(&mut spot.hint, ty)
        }
        None => push_most_calls(spot),
    }
}

/// Says which types a design has.
fn push_types(out: &mut Page, d: &Design) {
    let types = d.types.as_slice();
    if types.is_empty() {
        return out.push(b"the design has no types: each begins with `type NAME PARAMETERS`");
    }
    out.push(b"the types of the design are");
    for ty in types {
        out.push(b" ");
        push_quoted(out, ty.name.as_slice());
    }
}

/// Says that a word is no type's name, and which there are.
fn push_type_fault(spot: &mut Spot, d: &Design, word: LineWord) {
    mark(spot, word);
    spot.what.push(b"there is no type called ");
    push_quoted(&mut spot.what, word.bytes);
    push_types(&mut spot.hint, d)
}

/// The spot of a refused line of a script over a design, and what the type's parameters are.
pub fn script_spot(alloc: Global, d: &Design, line: &[u8]) -> Spot {
    let mut spot = line_spot(alloc);
    let Some(word) = next_word(line, 0) else {
        return spot;
    };
    let Some(ty) = type_named(d, word.bytes) else {
        push_type_fault(&mut spot, d, word);
        return spot;
    };
    match parameters_end(&mut spot, line, ty, end_of(word)) {
        Some(at) => push_rest_fault(&mut spot, line, ty, at),
        None => {}
    }
    spot
}
