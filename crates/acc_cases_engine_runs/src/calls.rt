//! The calls of a script.
ghost use Rattle.std.specs.Prelude.{◌<◌, ◌^◌, IfOk, IfSome};
ghost use Rattle.acc_script.specs.BeginSizes.{begins_size};
ghost use Rattle.acc_engine.specs.Keeping.{CallsFit};

use acc_base::machines::Call;
use acc_base::sequences::Seq;
use acc_cases_words::words::number;
use acc_lift::Accepted;
use acc_script::calls;
use std::alloc::{AllocError, Global};

/// The most bytes of a script.
const LONGEST: usize = 1 << 26;

/// Writes a line, so many times where a number and a `*` stand before it.
fn push_lines(bytes: &mut Vec<u8>, piece: &str) -> Result<(), AllocError> {
    let (times, line) = piece.split_once('*').unwrap_or(("1", piece));
    for _ in 0..number(times) {
        bytes.extend_from_slice(line.as_bytes())?;
        bytes.push(b'\n')?;
    }
    Ok(())
}

/// The lines of a script.
fn lines(alloc: Global, script: &str) -> Result<Vec<u8>, AllocError> {
    let mut bytes = Vec::new(alloc);
    for piece in script.split('/') {
        push_lines(&mut bytes, piece)?;
    }
    Ok(bytes)
}

/// The calls of a script in its bytes, if they are one of the design's.
fn calls_in(alloc: Global, design: &Accepted, script: &[u8]) -> Option<Seq<Call>>
    ensures fits { IfSome result (CallsFit design.now) }
    ensures few { IfSome result (λ asked. begins_size asked < 2 ^ 31) }
{
    if script.len() > LONGEST {
        return None;
    }
    match calls(alloc, design.design(), script) {
        Ok(asked) => Some(asked),
        Err(_) => None,
    }
}

/// The calls of a script, if it is one of the design's.
pub fn asked(
    alloc: Global,
    design: &Accepted,
    script: &str,
) -> Result<Option<Seq<Call>>, AllocError>
    ensures fits { IfOk result (λ asked. IfSome asked (CallsFit design.now)) }
    ensures few { IfOk result (λ asked. IfSome asked (λ calls. begins_size calls < 2 ^ 31)) }
{
    let script = lines(alloc, script)?;
    Ok(calls_in(alloc, design, &script))
}
