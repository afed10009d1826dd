//! Events by words.
ghost use Rattle.std.specs.Prelude.{◌≡◌, ◌<◌, ◌^◌, [], ◌∷◌, IfOk, IfSome};
ghost use Rattle.acc_wal.specs.Spellings.{Fits, CallFits, cause_number};

use acc_base::machines::{Call, Cause, Event};
use acc_base::sequences::{Boxed, Seq};
use std::alloc::{AllocError, Global};
use std::fmt::Write;

/// The number that a word spells, if it fits 32 bits; else 0.
fn small(word: &str) -> u32 {
    word.parse().unwrap_or(0)
}

/// The cause that a word names, if it names one, with the number of a refusal.
fn cause(word: &str, number: u32) -> Option<Cause>
    ensures { IfSome result (λ cause. cause_number cause < 2 ^ 32) }
{
    match word {
        "refused" => Some(Cause::Refused(number)),
        "range" => Some(Cause::Range),
        "limit" => Some(Cause::Limit),
        "asked" => Some(Cause::Asked),
        "victim" => Some(Cause::Victim),
        "crash" => Some(Cause::Crash),
        _ => None,
    }
}

/// After how many steps a call asks to be turned: the largest that is spelled is one below 2^32 - 1.
fn ask(word: &str) -> Option<u32>
    ensures { IfSome result (λ n. n < 0xffff_ffff) }
{
    match word.parse::<u32>() {
        Ok(n) if n < 0xffff_ffff => Some(n),
        _ => None,
    }
}

fn one(alloc: Global, number: i64) -> Result<Seq<i64>, AllocError>
    ensures { IfOk result (λ numbers. numbers ≡ number ∷ []) }
{
    let mut numbers = Vec::new(alloc);
    numbers.push(number)?;
    Ok(Seq::from_vec(numbers))
}

/// A call of a type with one parameter and one number on its tape.
fn call(alloc: Global, ty: u16, param: i64, tape: i64, ask: Option<u32>) -> Result<Call, AllocError>
    requires { IfSome ask (λ n. n < 0xffff_ffff) }
    ensures { IfOk result CallFits }
{
    Ok(Call {
        ty: ty as u32,
        params: one(alloc, param)?,
        tape: one(alloc, tape)?,
        ask,
    })
}

/// The abort of a transaction for the cause of a word and the number of a refusal, if the word is a cause's.
#[tactic(auto, unfolding(acc_wal::specs::Spellings::Fits))]
fn abort(t: &str, of: &str, by: &str) -> Option<Event>
    ensures { IfSome result Fits }
{
    Some(Event::Abort(small(t) as u64, cause(of, small(by))?))
}

/// The event of those words, if they are one's.
#[tactic(auto, unfolding(acc_wal::specs::Spellings::Fits))]
pub fn event(alloc: Global, words: &[&str]) -> Result<Option<Event>, AllocError>
    ensures { IfOk result (λ event. IfSome event Fits) }
{
    Ok(match words {
        ["begin", ty, param, tape, turn] => {
            let (ty, param) = (ty.parse().unwrap_or(0), param.parse().unwrap_or(0));
            let call = call(alloc, ty, param, tape.parse().unwrap_or(0), ask(turn))?;
            Some(Event::Begin(Boxed::new(alloc, call)?))
        }
        ["step", t] => Some(Event::Step(small(t) as u64)),
        ["undo", t] => Some(Event::Undo(small(t) as u64)),
        ["abort", t, of, by] => abort(t, of, by),
        _ => None,
    })
}

fn push_event(out: &mut String, event: &Event) -> Result<(), AllocError> {
    match event {
        Event::Begin(boxed) => {
            let call = boxed.get();
            let (ty, params, tape) = (call.ty, call.params.as_slice(), call.tape.as_slice());
            write!(out, "begin({ty},{params:?},{tape:?},{:?})", call.ask)
        }
        Event::Step(t) => write!(out, "step({t})"),
        Event::Undo(t) => write!(out, "undo({t})"),
        Event::Abort(t, cause) => write!(out, "abort({t},{cause:?})"),
    }
}

/// Pushes the events between brackets, with commas.
pub fn push_events(out: &mut String, events: &[Event]) -> Result<(), AllocError> {
    let mut mark = "[";
    for event in events {
        out.push_str(mark)?;
        push_event(out, event)?;
        mark = ",";
    }
    out.push_str(if events.is_empty() { "[]" } else { "]" })
}
