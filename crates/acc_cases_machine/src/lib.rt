//! Cases of single events, steps, scripts, orders and lines over a design, and of rows of bookings: what each question answers.
//!
//! `design TEXT` gives the design of the questions behind it, and `rename` gives its last type the name of its first. A number stands for a
//! type, a point, a table or a column, from 0 on; a list has commas, and '-' is none. `long_script COUNT FIRST~PIECE~LAST` and `long_order
//! PLACES COUNT FIRST~PIECE~LAST` ask about texts with a piece so many times. `indexed` asks what `events` does over a store that keeps the
//! totals that the design's steps read. `oversold NUMBER SEATS FREE`, or `oversold -`, asks the test of the shipped booking design of the
//! row of a flight, or of no row.
#![tactic(auto)]

mod bookings;
mod designs;
mod escapes;
mod events;
mod lines;
mod long;
mod names;
mod scripts;
mod steps;

use acc_base::designs::Design;
use acc_cases_words::words::{parted, said};
use std::alloc::{AllocError, Global};

/// Pushes what a question answers about scripts and orders that no line holds.
fn push_long(
    alloc: Global,
    out: &mut String,
    design: &Design,
    verb: &str,
    rest: &str,
) -> Result<(), AllocError> {
    match verb {
        "long_script" => long::push_script(alloc, out, design, rest),
        "long_order" => long::push_order(alloc, out, rest),
        _ => out.push_str("no question"),
    }
}

/// Pushes what a question answers.
fn push_answer(
    alloc: Global,
    out: &mut String,
    design: &Design,
    question: &str,
) -> Result<(), AllocError> {
    let (verb, rest) = parted(question, " ");
    match verb {
        "events" => events::push_answers(alloc, out, design, rest),
        "indexed" => events::push_indexed(alloc, out, design, rest),
        "effect" | "look" => steps::push_answer(alloc, out, design, verb, rest),
        "script" => scripts::push_script(alloc, out, design, rest),
        "order" => scripts::push_order(alloc, out, rest),
        "play" => scripts::push_play(alloc, out, design),
        "line" => lines::push_line_of(alloc, out, design, rest),
        "oversold" => bookings::push_oversold(alloc, out, rest),
        _ => push_long(alloc, out, design, verb, rest),
    }
}

/// What a question answers about a design.
fn answer_over(alloc: Global, design: &Design, question: &str) -> Result<String, AllocError> {
    let mut out = String::new(alloc);
    push_answer(alloc, &mut out, design, question)?;
    Ok(out)
}

/// What a question answers about a design; none of a line that changes it.
fn answer_about(
    alloc: Global,
    design: &mut Design,
    question: &str,
) -> Result<Option<String>, AllocError> {
    if question == "rename" {
        names::rename(design)?;
        return Ok(None);
    }
    Ok(Some(answer_over(alloc, design, question)?))
}

/// What the question of a line answers about the design of the lines before; none of a line that gives another, or changes it.
pub fn answer(
    alloc: Global,
    design: &mut Option<Design>,
    line: &str,
) -> Result<Option<String>, AllocError> {
    if let Some(text) = line.strip_prefix("design ") {
        designs::renew(alloc, design, text)?;
        return Ok(None);
    }
    match design {
        Some(design) => answer_about(alloc, design, line),
        None => Ok(Some(said(alloc, "no design")?)),
    }
}
