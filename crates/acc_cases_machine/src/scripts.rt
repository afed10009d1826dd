//! Scripts and orders, and the play of no calls.
use crate::designs::is_formed;
use crate::escapes::bytes;
use acc_base::designs::Design;
use acc_base::machines::Call;
use acc_cases_words::words::{number, parted};
use acc_play::play;
use acc_script::{ScriptError, calls, order};
use std::alloc::{AllocError, Global};
use std::fmt::Write;

/// Pushes a call: its type, its parameters, its tape, and when it is asked to turn.
fn push_call(out: &mut String, call: &Call) -> Result<(), AllocError> {
    write!(
        out,
        " ({} {:?} {:?} {:?})",
        call.ty,
        call.params.as_slice(),
        call.tape.as_slice(),
        call.ask
    )
}

fn push_calls(out: &mut String, calls: &[Call]) -> Result<(), AllocError> {
    out.push_str("calls")?;
    for call in calls {
        push_call(out, call)?;
    }
    Ok(())
}

/// Pushes why a script or an order is refused.
pub fn push_error(out: &mut String, error: ScriptError) -> Result<(), AllocError> {
    match error {
        ScriptError::Line(line) => write!(out, "refused {line}"),
        ScriptError::Memory => Err(AllocError),
    }
}

/// Pushes the calls of a script, or why it is refused.
pub fn push_script(
    alloc: Global,
    out: &mut String,
    design: &Design,
    text: &str,
) -> Result<(), AllocError> {
    let text = bytes(alloc, text)?;
    match calls(alloc, design, text.as_slice()) {
        Ok(calls) => push_calls(out, calls.as_slice()),
        Err(error) => push_error(out, error),
    }
}

/// Pushes the places of an order over so many calls, or why it is refused.
pub fn push_order(alloc: Global, out: &mut String, words: &str) -> Result<(), AllocError> {
    let (places, text) = parted(words, " ");
    let text = bytes(alloc, text)?;
    match order(alloc, number(places), text.as_slice()) {
        Ok(places) => write!(out, "{:?}", places.as_slice()),
        Err(error) => push_error(out, error),
    }
}

/// Pushes the text of the play of no calls, and how many events it has.
pub fn push_play(alloc: Global, out: &mut String, design: &Design) -> Result<(), AllocError> {
    if !is_formed(design) {
        return out.push_str("no design");
    }
    let told = play(alloc, design, &[], &[])?;
    let count = told.history.len();
    write!(out, "{:?} {count}", told.text.as_slice())
}
