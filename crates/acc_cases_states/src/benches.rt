//! Loads with a mix of calls behind them.
ghost use Rattle.acc_player.specs.Playing.{AllFit};

use crate::schedules::push_refusal;
use acc_base::machines::Call;
use acc_bench::{count_lines, load_and_mix};
use acc_cases_words::words::{parted, push_lines};
use acc_lift::Accepted;
use acc_progress::Silent;
use acc_script::{calls, order};
use std::alloc::{AllocError, Global};

/// Pushes what is told of a load, and of a mix in an order behind it.
fn push_ordered(
    alloc: Global,
    out: &mut String,
    design: &Accepted,
    load: &[Call],
    mix: &[Call],
    places: &str,
) -> Result<(), AllocError>
    requires load_fits { AllFit design.now load.now }
    requires mix_fits { AllFit design.now mix.now }
{
    match order(alloc, mix.len() as u64, places.as_bytes()) {
        Ok(places) => {
            let turns = places.as_slice();
            let ran = load_and_mix(alloc, design, load, mix, turns, &mut Silent)?;
            push_lines(out, &count_lines(alloc, &ran)?)
        }
        Err(error) => push_refusal(out, error, "order"),
    }
}

/// Pushes what is told of a load, and of a mix behind it, or what of the mix isn't as it should be.
fn push_mixed(
    alloc: Global,
    out: &mut String,
    design: &Accepted,
    load: &[Call],
    case: &str,
) -> Result<(), AllocError>
    requires fit { AllFit design.now load.now }
{
    let (mix, places) = parted(case, " -> ");
    let mix = mix.replace(alloc, ";", "\n")?;
    match calls(alloc, design.design(), mix.as_bytes()) {
        Ok(mix) => push_ordered(alloc, out, design, load, mix.as_slice(), places),
        Err(error) => push_refusal(out, error, "mix"),
    }
}

/// Pushes what is told of a load and of a mix behind it, or what isn't as it should be.
pub fn push_bench(
    alloc: Global,
    out: &mut String,
    design: &Accepted,
    case: &str,
) -> Result<(), AllocError> {
    let (load, rest) = parted(case, " -> ");
    let load = load.replace(alloc, ";", "\n")?;
    match calls(alloc, design.design(), load.as_bytes()) {
        Ok(load) => push_mixed(alloc, out, design, load.as_slice(), rest),
        Err(error) => push_refusal(out, error, "load"),
    }
}
