//! Calls that begin.
ghost use Rattle.std.specs.Prelude.{◌≡◌, true, slice_get};
ghost use Rattle.acc_base.specs.Machine.{call_fits};

use acc_base::machines::Call;
use acc_cases_words::words::{number, parted};
use acc_lift::Accepted;
use acc_machine::{BeginError, State};
use acc_script::calls;
use acc_store::MapStore;
use std::alloc::{AllocError, Global};
use std::fmt::Write;

/// The most turns of a transaction.
const MOST_TURNS: u64 = 200_000;

/// Turns a transaction until it has ended.
fn end(state: &mut State<MapStore>, t: u64) -> Result<(), AllocError>
    ensures { state.new.design ≡ state.old.design }
{
    for _ in 0..MOST_TURNS {
        if !state.is_unfinished(t) {
            return Ok(());
        }
        if state.turn(t).is_err() {
            return Err(AllocError);
        }
    }
    Ok(())
}

/// Pushes the number of a call that begins, or why it doesn't.
fn push_begun(out: &mut String, state: &mut State<MapStore>, call: &Call) -> Result<(), AllocError>
    requires fits { call_fits (slice_get state.old.design.types call.now.ty) call.now ≡ true }
    ensures { state.new.design ≡ state.old.design }
{
    match state.begin(call) {
        Ok(t) => write!(out, "{t}"),
        Err(BeginError::Full) => out.push_str("full"),
        Err(BeginError::Crowd) => out.push_str("crowd"),
        Err(BeginError::Memory) => Err(AllocError),
    }
}

/// Begins a call so many times, while it begins.
fn fill(state: &mut State<MapStore>, call: &Call, times: u64) -> Result<(), AllocError>
    requires fits { call_fits (slice_get state.old.design.types call.now.ty) call.now ≡ true }
    ensures { state.new.design ≡ state.old.design }
{
    for _ in 0..times {
        if state.begin(call).is_err() {
            return Ok(());
        }
    }
    Ok(())
}

/// Begins a call and ends it, again and again, until there are so many events.
fn spend(state: &mut State<MapStore>, call: &Call, most: u64) -> Result<(), AllocError>
    requires fits { call_fits (slice_get state.old.design.types call.now.ty) call.now ≡ true }
    ensures { state.new.design ≡ state.old.design }
{
    for _ in 0..most {
        if state.events().len() as u64 >= most {
            return Ok(());
        }
        match state.begin(call) {
            Ok(t) => end(state, t)?,
            Err(BeginError::Full | BeginError::Crowd | BeginError::Memory) => return Ok(()),
        }
    }
    Ok(())
}

/// Pushes how many transactions are unfinished, after a call has begun so many times.
fn push_filled(
    out: &mut String,
    state: &mut State<MapStore>,
    call: &Call,
    times: u64,
) -> Result<(), AllocError>
    requires fits { call_fits (slice_get state.old.design.types call.now.ty) call.now ≡ true }
    ensures { state.new.design ≡ state.old.design }
{
    fill(state, call, times)?;
    write!(out, "begun {}", state.unfinished().len())
}

/// Pushes how many events there are, after a call has begun and ended until there are so many.
fn push_spent(
    out: &mut String,
    state: &mut State<MapStore>,
    call: &Call,
    most: u64,
) -> Result<(), AllocError>
    requires fits { call_fits (slice_get state.old.design.types call.now.ty) call.now ≡ true }
    ensures { state.new.design ≡ state.old.design }
{
    spend(state, call, most)?;
    write!(out, "spent {}", state.events().len())
}

/// Pushes what comes of a call.
fn push_called(
    out: &mut String,
    state: &mut State<MapStore>,
    verb: &str,
    count: u64,
    call: &Call,
) -> Result<(), AllocError>
    requires fits { call_fits (slice_get state.old.design.types call.now.ty) call.now ≡ true }
    ensures { state.new.design ≡ state.old.design }
{
    match verb {
        "begin" => push_begun(out, state, call),
        "fill" => push_filled(out, state, call, count),
        _ => push_spent(out, state, call, count),
    }
}

/// Pushes what comes of the call that a script's line asks for.
pub fn push_call(
    alloc: Global,
    out: &mut String,
    design: &Accepted,
    state: &mut State<MapStore>,
    verb: &str,
    rest: &str,
) -> Result<(), AllocError>
    requires { state.old.design ≡ design.now }
    ensures { state.new.design ≡ design.now }
{
    let (count, line) = if verb == "begin" {
        ("", rest)
    } else {
        parted(rest, " ")
    };
    let Ok(asked) = calls(alloc, design.design(), line.as_bytes()) else {
        return out.push_str("no call");
    };
    match asked.as_slice() {
        [call] => push_called(out, state, verb, number(count), call),
        _ => out.push_str("no call"),
    }
}
