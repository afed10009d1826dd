//! Calls of a state, and questions about it.
ghost use Rattle.std.specs.Prelude.{◌≡◌};

use crate::begins::push_call;
use crate::dumps::push_dump;
use crate::turns::{push_crashed, push_taken, push_turned};
use acc_cases_words::events::{event, push_reply, push_unfinished};
use acc_cases_words::rows::push_row_answer;
use acc_cases_words::words::{number, parted};
use acc_lift::Accepted;
use acc_machine::State;
use acc_store::MapStore;
use std::alloc::{AllocError, Global};
use std::fmt::Write;

/// Pushes what a question about a state answers.
fn push_answer(
    alloc: Global,
    out: &mut String,
    state: &State<MapStore>,
    words: &[&str],
) -> Result<(), AllocError> {
    match words {
        ["stuck"] => write!(out, "{}", state.stuck()),
        ["events"] => write!(out, "{}", state.events().len()),
        ["unfinished"] => push_unfinished(out, state.unfinished()),
        ["is_unfinished", t] => write!(out, "{}", state.is_unfinished(number(t))),
        ["reply", t] => push_reply(out, state.reply(number(t))),
        _ => push_row_answer(alloc, out, state.store(), words),
    }
}

/// Pushes whether the event of those words is taken, or what a question of those words answers.
fn push_asked(
    alloc: Global,
    out: &mut String,
    state: &mut State<MapStore>,
    item: &str,
) -> Result<(), AllocError>
    ensures { state.new.design ≡ state.old.design }
{
    let words: Vec<&str> = item.split(' ').collect(alloc)?;
    match words.as_slice() {
        ["take", of @ ..] => match event(alloc, of)? {
            Some(event) => push_taken(out, state, &event),
            None => out.push_str("no event"),
        },
        _ => push_answer(alloc, out, state, words.as_slice()),
    }
}

/// Pushes what an item answers.
fn push_item(
    alloc: Global,
    out: &mut String,
    design: &Accepted,
    state: &mut State<MapStore>,
    item: &str,
) -> Result<(), AllocError>
    requires { state.old.design ≡ design.now }
    ensures { state.new.design ≡ design.now }
{
    let (verb, rest) = parted(item, " ");
    match verb {
        "begin" | "fill" | "spend" => push_call(alloc, out, design, state, verb, rest),
        "turn" => push_turned(out, state, number(rest)),
        "crash" => push_crashed(out, state, number(rest)),
        "dump" => push_dump(alloc, out, design.design(), state.store()),
        _ => push_asked(alloc, out, state, item),
    }
}

/// Pushes what the items answer, one after the other.
fn push_items(
    alloc: Global,
    out: &mut String,
    design: &Accepted,
    state: &mut State<MapStore>,
    items: &str,
) -> Result<(), AllocError>
    requires { state.old.design ≡ design.now }
{
    let mut first = true;
    for item in items.split("; ") {
        if !first {
            out.push_str("; ")?;
        }
        first = false;
        push_item(alloc, out, design, state, item)?;
    }
    Ok(())
}

/// Pushes what calls of a fresh state and questions about it answer.
pub fn push_answers(
    alloc: Global,
    out: &mut String,
    design: &Accepted,
    items: &str,
) -> Result<(), AllocError> {
    match State::new(alloc, design, MapStore::new(alloc)) {
        Ok(mut state) => push_items(alloc, out, design, &mut state, items),
        Err(_) => Err(AllocError),
    }
}
