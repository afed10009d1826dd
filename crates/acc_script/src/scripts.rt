//! Scripts: a line asks for a transaction.
ghost use Rattle.std.specs.Prelude.{◌≡◌, ◌≢◌, ℕ, ◌*◌, ◌<◌, ◌≤◌, ◌^◌, List, All, length, position, Some, None, IfSome, IfOk, OnOk, ℤ};
ghost use Rattle.acc_base.specs.declared.machines.Call.{Call};
ghost use Rattle.acc_script.specs.LineReadings.{AddsSaid, IsTooMuch};
ghost use Rattle.acc_script.specs.CallLines.{is_named, FitsType, IsCallLine, SaysCall, IsScript, RefusesLine, most_calls};
ghost use Rattle.acc_script.specs.BeginSizes.{begins_size};
ghost use Rattle.acc_script.specs.CallParts.{IsCalled, AreParameters, BeginWith};

use crate::cuts::{Pieces, Words, is_skipped};
use crate::errors::{LineError, ScriptError};
use crate::numbers::integer;
use crate::tapes::{ask, tape};
use acc_base::bounds::MOST_CALLS;
use acc_base::designs::Design;
use acc_base::machines::Call;
use acc_base::sequences::Seq;
use std::alloc::Global;

/// The place of the first type of a name.
fn type_named(d: &Design, name: &[u8]) -> Option<usize>
    ensures { result ≡ position (is_named name.now) d.now.types }
{
    d.types
        .as_slice()
        .iter()
        .position(|x| x.name.as_slice() == name)
}

/// The number of the first type of a name, and how many parameters it has.
fn called_type(d: &Design, name: &[u8]) -> Option<(u32, u32)>
    ensures some { IfSome result (λ p. IsCalled d.now name.now p.0 p.1) }
    ensures none { result ≡ None → (ty : ℕ) → ty < 2 ^ 32 → position (is_named name.now) d.now.types ≢ Some ty }
{
    let place = type_named(d, name)?;
    let ty = u32::try_from(place).ok()?;
    Some((ty, d.types.as_slice()[place].params))
}

/// The parameters that come next; after an error it is not known which words are left.
fn parameters(alloc: Global, count: u32, words: &mut Words) -> Result<Seq<i64>, LineError>
    ensures read { IfOk result (λ values. BeginWith words.old values words.new) }
    ensures ok { IfOk result (AreParameters count) }
    ensures refused { result ≡ Err LineError.Refused
        → (values : List ℤ) (left : List (List ℕ)) → AreParameters count values → ¬ BeginWith words.old values left }
{
    let mut values = Seq::new(alloc);
    for _ in 0..count {
        let Some(word) = words.next() else {
            return Err(LineError::Refused);
        };
        let Some(value) = integer(word) else {
            return Err(LineError::Refused);
        };
        values.push(value)?;
    }
    Ok(values)
}

/// The call that a line asks for.
fn read_call(alloc: Global, d: &Design, line: &[u8]) -> Result<Call, LineError>
    ensures ok { IfOk result (IsCallLine d.now line.now) }
    ensures refused { result ≡ Err LineError.Refused → (call : Call) → ¬ IsCallLine d.now line.now call }
{
    let mut words = Words::new(line);
    let Some(name) = words.next() else {
        return Err(LineError::Refused);
    };
    let Some((ty, count)) = called_type(d, name) else {
        return Err(LineError::Refused);
    };
    let params = parameters(alloc, count, &mut words)?;
    let tape = tape(alloc, &mut words)?;
    let ask = ask(&mut words)?;
    Ok(Call {
        ty,
        params,
        tape,
        ask,
    })
}

/// Reads the call of a line.
fn push_call(alloc: Global, calls: &mut Seq<Call>, d: &Design, line: &[u8]) -> Result<(), LineError>
    requires { length calls.old ≤ most_calls }
    ensures ok { OnOk result (AddsSaid (SaysCall d.now) most_calls line.now calls.old calls.new) }
    ensures refused { result ≡ Err LineError.Refused → IsTooMuch (SaysCall d.now) most_calls line.now (length calls.old) }
{
    let call = read_call(alloc, d, line)?;
    if calls.len() == MOST_CALLS {
        return Err(LineError::Refused);
    }
    calls.push(call)?;
    Ok(())
}

/// The calls of a script over a design, in order. The cost is linear in the text and, for each call, in the types of the design.
pub fn calls(alloc: Global, d: &Design, text: &[u8]) -> Result<Seq<Call>, ScriptError>
    ensures ok { IfOk result (IsScript d.now text.now) }
    ensures only { (asked : List Call) → IsScript d.now text.now asked → IfOk result (λ found. found ≡ asked) }
    ensures fits { IfOk result (All (FitsType d.now)) }

    // In a journal the events Begin of the calls take at most ten bytes for each byte of the script.
    ensures short { IfOk result (λ found. begins_size found ≤ 10 * length text.now) }

    ensures line { (n : ℕ) → result ≡ Err (ScriptError.Line n) → RefusesLine d.now text.now n }
    ensures none { (n : ℕ) → result ≡ Err (ScriptError.Line n)
        → (asked : List Call) → ¬ IsScript d.now text.now asked }
{
    let mut lines = Pieces::new(text, b'\n');
    let mut calls = Seq::new(alloc);
    let mut count = 0;
    while let Some(line) = lines.next() {
        count += 1;
        if !is_skipped(line) {
            if let Err(e) = push_call(alloc, &mut calls, d, line) {
                return Err(e.at(count));
            }
        }
    }
    Ok(calls)
}
