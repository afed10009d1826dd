//! Events of words, and what is told of transactions.
use crate::causes::cause;
use crate::words::{list, number, small};
use acc_base::machines::{Call, Event, Frame, Outcome, Reply};
use acc_base::sequences::{Boxed, Seq};
use std::alloc::{AllocError, Global};
use std::fmt::Write;

/// A call of those parameters, without a tape.
fn call(alloc: Global, ty: u32, params: &str) -> Result<Event, AllocError> {
    let params = list(alloc, params)?;
    let call = Call {
        ty,
        params: Seq::from_vec(params),
        tape: Seq::new(alloc),
        ask: None,
    };
    Ok(Event::Begin(Boxed::new(alloc, call)?))
}

/// The event of a transaction of those words, if they are one's.
fn event_of(words: &[&str]) -> Option<Event> {
    match words {
        ["step", t] => Some(Event::Step(number(t))),
        ["undo", t] => Some(Event::Undo(number(t))),
        ["abort", t, of] => Some(Event::Abort(number(t), cause(of, 0)?)),
        ["abort", t, of, by] => Some(Event::Abort(number(t), cause(of, small(by))?)),
        _ => None,
    }
}

/// The event of those words, if they are one's.
pub fn event(alloc: Global, words: &[&str]) -> Result<Option<Event>, AllocError> {
    match words {
        ["begin", ty, params] => Ok(Some(call(alloc, small(ty), params)?)),
        _ => Ok(event_of(words)),
    }
}

fn push_outcome(out: &mut String, outcome: &Outcome) -> Result<(), AllocError> {
    match outcome {
        Outcome::Committed(values) => write!(out, "committed {:?}", values.as_slice()),
        Outcome::Compensated(cause) => write!(out, "compensated {cause:?}"),
    }
}

/// Pushes the reply of a transaction that has ended.
pub fn push_reply(out: &mut String, reply: Option<&Reply>) -> Result<(), AllocError> {
    match reply {
        Some(reply) => push_outcome(out, &reply.outcome),
        None => out.push_str("none"),
    }
}

fn push_number(out: &mut String, t: u64) -> Result<(), AllocError> {
    write!(out, " {t}")
}

/// Pushes the numbers of frames.
pub fn push_unfinished(out: &mut String, frames: &[Frame]) -> Result<(), AllocError> {
    out.push_str("unfinished")?;
    for frame in frames {
        push_number(out, frame.t)?;
    }
    Ok(())
}
