//! Scripts and orders that no line holds: a piece so many times, between a first and a last part.
use crate::escapes::bytes;
use crate::scripts::push_error;
use acc_base::designs::Design;
use acc_base::machines::Call;
use acc_cases_words::words::{number, parted};
use acc_script::{calls, order};
use std::alloc::{AllocError, Global};
use std::fmt::Write;

/// The text that `COUNT FIRST~PIECE~LAST` spells, with backslashes as in other texts.
fn repeated(alloc: Global, words: &str) -> Result<Vec<u8>, AllocError> {
    let (count, parts) = parted(words, " ");
    let (first, parts) = parted(parts, "~");
    let (piece, last) = parted(parts, "~");
    let mut text = bytes(alloc, first)?;
    add_repeated(&mut text, &bytes(alloc, piece)?, number(count))?;
    text.extend_from_slice(&bytes(alloc, last)?)?;
    Ok(text)
}

fn add_repeated(text: &mut Vec<u8>, piece: &[u8], count: u64) -> Result<(), AllocError> {
    for _ in 0..count {
        text.extend_from_slice(piece)?;
    }
    Ok(())
}

/// How many of the numbers are this one.
fn count_of(numbers: &[i64], wanted: i64) -> u64 {
    let mut count: u64 = 0;
    for number in numbers {
        if *number == wanted {
            count = count.saturating_add(1);
        }
    }
    count
}

/// Pushes how many numbers are on a call's tape, how many of them are as the first, which that is, and when the call is asked to turn.
fn push_tape(out: &mut String, call: &Call) -> Result<(), AllocError> {
    let tape = call.tape.as_slice();
    let first = tape.first();
    let alike = count_of(tape, *first.unwrap_or(&0));
    write!(
        out,
        "{} numbers, {alike} as {first:?}, {:?}",
        tape.len(),
        call.ask
    )
}

/// Pushes how many calls there are, and what is told of the last.
fn push_last(out: &mut String, calls: &[Call]) -> Result<(), AllocError> {
    write!(out, "{} calls", calls.len())?;
    match calls.last() {
        Some(call) => {
            out.push_str(", the last with ")?;
            push_tape(out, call)
        }
        None => Ok(()),
    }
}

/// Pushes what is told of the calls of such a script, or why it is refused.
pub fn push_script(
    alloc: Global,
    out: &mut String,
    design: &Design,
    words: &str,
) -> Result<(), AllocError> {
    let text = repeated(alloc, words)?;
    match calls(alloc, design, text.as_slice()) {
        Ok(calls) => push_last(out, calls.as_slice()),
        Err(error) => push_error(out, error),
    }
}

/// Pushes how many places there are, and the last four.
fn push_places(out: &mut String, places: &[u64]) -> Result<(), AllocError> {
    let count = places.len();
    let last = places.get(count.saturating_sub(4)..);
    write!(out, "{count} places, the last {last:?}")
}

/// Pushes what is told of such an order over so many calls, or why it is refused.
pub fn push_order(alloc: Global, out: &mut String, words: &str) -> Result<(), AllocError> {
    let (places, words) = parted(words, " ");
    let text = repeated(alloc, words)?;
    match order(alloc, number(places), text.as_slice()) {
        Ok(places) => push_places(out, places.as_slice()),
        Err(error) => push_error(out, error),
    }
}
