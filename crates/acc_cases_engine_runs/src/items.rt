//! Calls of an engine, and questions about it.
use crate::answers::{push_drawn, push_engine_error, push_settled, push_turn};
use acc_cases_words::events::{push_reply, push_unfinished};
use acc_cases_words::rows::push_row_answer;
use acc_cases_words::words::number;
use acc_disk::MemDisk;
use acc_engine::{Drawn, Engine, EngineError};
use acc_machine::State;
use acc_store::MapStore;
use std::alloc::{AllocError, Global};
use std::fmt::Write;

/// The most turns of a transaction.
const MOST_TURNS: u64 = 200_000;

/// Turns a transaction until it has ended.
fn end(engine: &mut Engine<MapStore, MemDisk>, t: u64) -> Result<(), EngineError> {
    for _ in 0..MOST_TURNS {
        if !engine.state().is_unfinished(t) {
            return Ok(());
        }
        engine.turn(t)?;
    }
    Ok(())
}

/// Draws while something begins, and pushes how often something did and what the last draw answers. Where that is asked for, each
/// that begins is turned to its end.
fn push_filled(
    out: &mut String,
    engine: &mut Engine<MapStore, MemDisk>,
    ends: bool,
) -> Result<(), AllocError> {
    for count in 0..u64::MAX {
        let drawn = engine.draw();
        match drawn {
            Ok(Drawn::Begun(t)) => {
                if ends && end(engine, t).is_err() {
                    return Err(AllocError);
                }
            }
            Ok(Drawn::Empty | Drawn::Full | Drawn::Crowd) | Err(_) => {
                write!(out, "{count} ")?;
                return push_drawn(out, drawn);
            }
        }
    }
    Ok(())
}

/// Pushes what beginning a place answers.
fn push_begun(
    out: &mut String,
    engine: &mut Engine<MapStore, MemDisk>,
    place: u64,
) -> Result<(), AllocError> {
    if place < 1 || place > engine.places() as u64 {
        return out.push_str("no place");
    }
    if engine.is_begun(place) {
        return out.push_str("begun before");
    }
    push_drawn(out, engine.begin_at(place))
}

/// Pushes what a turn answers.
fn push_turned(
    out: &mut String,
    engine: &mut Engine<MapStore, MemDisk>,
    t: u64,
) -> Result<(), AllocError> {
    if !engine.state().is_unfinished(t) {
        return out.push_str("not unfinished");
    }
    match engine.turn(t) {
        Ok(turn) => push_turn(out, turn),
        Err(error) => push_engine_error(out, error),
    }
}

/// Pushes what a question about a place answers.
fn push_place(
    out: &mut String,
    engine: &Engine<MapStore, MemDisk>,
    place: u64,
) -> Result<(), AllocError> {
    if place < 1 {
        return out.push_str("no place");
    }
    write!(out, "{}", engine.is_begun(place))
}

/// Pushes what a question about a state answers.
fn push_state(
    alloc: Global,
    out: &mut String,
    state: &State<MapStore>,
    words: &[&str],
) -> Result<(), AllocError> {
    match words {
        ["reply", t] => push_reply(out, state.reply(number(t))),
        ["events"] => write!(out, "{}", state.events().len()),
        ["unfinished"] => push_unfinished(out, state.unfinished()),
        _ => push_row_answer(alloc, out, state.store(), words),
    }
}

/// Pushes what a question about an engine answers.
fn push_told(
    alloc: Global,
    out: &mut String,
    engine: &Engine<MapStore, MemDisk>,
    words: &[&str],
) -> Result<(), AllocError> {
    match words {
        ["ack", t] => push_reply(out, engine.ack(number(t))),
        ["places"] => write!(out, "{}", engine.places()),
        ["is_begun", place] => push_place(out, engine, number(place)),
        ["settled"] => write!(out, "{}", engine.settled()),
        _ => push_state(alloc, out, engine.state(), words),
    }
}

/// Pushes what a call of those words answers.
fn push_words(
    alloc: Global,
    out: &mut String,
    engine: &mut Engine<MapStore, MemDisk>,
    words: &[&str],
) -> Result<(), AllocError> {
    match words {
        ["draw"] => push_drawn(out, engine.draw()),
        ["fill"] => push_filled(out, engine, false),
        ["spend"] => push_filled(out, engine, true),
        ["begin", place] => push_begun(out, engine, number(place)),
        ["turn", t] => push_turned(out, engine, number(t)),
        ["settle"] => push_settled(out, engine.settle()),
        _ => push_told(alloc, out, engine, words),
    }
}

/// Pushes what an item answers.
fn push_item(
    alloc: Global,
    out: &mut String,
    engine: &mut Engine<MapStore, MemDisk>,
    item: &str,
) -> Result<(), AllocError> {
    let words: Vec<&str> = item.split(' ').collect(alloc)?;
    push_words(alloc, out, engine, words.as_slice())
}

/// Pushes what the items answer, one after the other.
pub fn push_items(
    alloc: Global,
    out: &mut String,
    engine: &mut Engine<MapStore, MemDisk>,
    items: &str,
) -> Result<(), AllocError> {
    for item in items.split("; ") {
        push_item(alloc, out, engine, item)?;
        out.push_str("; ")?;
    }
    Ok(())
}
