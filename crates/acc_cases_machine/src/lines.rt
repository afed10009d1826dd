//! Single lines of a play.
use acc_base::designs::{At, Design};
use acc_base::machines::{Cause, Outcome, Reply, Turn};
use acc_base::sequences::Seq;
use acc_cases_words::causes::cause;
use acc_cases_words::words::{list, number, parted, small};
use acc_script::{
    push_events, push_full, push_over, push_reply, push_stuck, push_turn, push_unbegun,
    push_unfinished, push_unsettled,
};
use std::alloc::{AllocError, Global};
use std::fmt::Write;

/// The places of two transactions, by number from 1.
const PLACES: [u64; 2] = [9, 7];

fn at(words: &str) -> At {
    let (ty, point) = parted(words, " ");
    At {
        ty: small(ty),
        point: small(point),
    }
}

fn blocked(words: &str) -> Turn {
    let (t, entry) = parted(words, " ");
    Turn::Blocked(number(t), small(entry))
}

/// The cause that a word names, if it names one, with the number of a refusal behind it.
fn cause_of(words: &str) -> Option<Cause> {
    let (of, by) = parted(words, " ");
    cause(of, small(by))
}

/// The turn of a word and of those behind it.
fn turn(word: &str, rest: &str) -> Option<Turn> {
    match word {
        "stepped" => Some(Turn::Stepped(at(rest))),
        "back" => Some(Turn::Back(at(rest))),
        "blocked" => Some(blocked(rest)),
        "turned" => Some(Turn::Turned(cause_of(rest)?)),
        "ended" => Some(Turn::Ended),
        _ => None,
    }
}

/// The outcome of a word and of those behind it.
fn outcome(alloc: Global, word: &str, rest: &str) -> Result<Option<Outcome>, AllocError> {
    match word {
        "committed" => Ok(Some(Outcome::Committed(Seq::from_vec(list(alloc, rest)?)))),
        "compensated" => Ok(cause_of(rest).map(Outcome::Compensated)),
        _ => Ok(None),
    }
}

fn push_plain(out: &mut Vec<u8>, word: &str, place: u64) -> Result<(), AllocError> {
    match word {
        "stuck" => push_stuck(out, place),
        "over" => push_over(out, place),
        "unbegun" => push_unbegun(out, place),
        "full" => push_full(out, place),
        "unsettled" => push_unsettled(out, place),
        "unfinished" => push_unfinished(out, place),
        "events" => push_events(out, place),
        _ => out.extend_from_slice(b"no line"),
    }
}

/// Pushes the line that is told of a place.
fn push_line(
    alloc: Global,
    out: &mut Vec<u8>,
    design: &Design,
    place: u64,
    words: &str,
) -> Result<(), AllocError> {
    let (word, rest) = parted(words, " ");
    if let Some(turn) = turn(word, rest) {
        return push_turn(out, design, &PLACES, place, turn);
    }
    match outcome(alloc, word, rest)? {
        Some(outcome) => push_reply(out, place, &Reply { t: place, outcome }),
        None => push_plain(out, word, place),
    }
}

/// Pushes the line of a place and of the words behind it, in quotation marks.
pub fn push_line_of(
    alloc: Global,
    out: &mut String,
    design: &Design,
    words: &str,
) -> Result<(), AllocError> {
    let (place, rest) = parted(words, " ");
    let mut line = Vec::new(alloc);
    push_line(alloc, &mut line, design, number(place), rest)?;
    write!(out, "{:?}", std::str::from_utf8(line.as_slice()).ok())
}
