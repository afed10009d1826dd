//! Schedules of a script's calls.
ghost use Rattle.acc_player.specs.Playing.{AllFit};

use acc_base::machines::Call;
use acc_cases_words::words::{parted, push_lines};
use acc_lift::Accepted;
use acc_schedule::schedule;
use acc_script::{ScriptError, calls, order};
use std::alloc::{AllocError, Global};
use std::fmt::Write;

/// Pushes that one of these is refused.
pub fn push_refusal(out: &mut String, error: ScriptError, what: &str) -> Result<(), AllocError> {
    match error {
        ScriptError::Line(_) => write!(out, "refused {what}"),
        ScriptError::Memory => Err(AllocError),
    }
}

/// Pushes the lines of calls in an order.
fn push_ordered(
    alloc: Global,
    out: &mut String,
    design: &Accepted,
    asked: &[Call],
    places: &str,
) -> Result<(), AllocError>
    requires fit { AllFit design.now asked.now }
{
    match order(alloc, asked.len() as u64, places.as_bytes()) {
        Ok(places) => push_lines(
            out,
            &schedule(alloc, design, asked, places.as_slice())?.text,
        ),
        Err(error) => push_refusal(out, error, "order"),
    }
}

/// Pushes the lines of a script's calls in an order, or what isn't as it should be.
pub fn push_schedule(
    alloc: Global,
    out: &mut String,
    design: &Accepted,
    case: &str,
) -> Result<(), AllocError> {
    let (script, places) = parted(case, " -> ");
    let script = script.replace(alloc, ";", "\n")?;
    match calls(alloc, design.design(), script.as_bytes()) {
        Ok(asked) => push_ordered(alloc, out, design, asked.as_slice(), places),
        Err(error) => push_refusal(out, error, "script"),
    }
}
