//! Whether a call fits its type.
ghost use Rattle.std.specs.Prelude.{◌≡◌, slice_get};
ghost use Rattle.std.specs.List.{list_all};
ghost use Rattle.acc_base.specs.Numbers.{is_small};
ghost use Rattle.acc_base.specs.Machine.{ask_fits, call_fits};

use acc_base::bounds::{LATEST_ASK, LONGEST_TAPE};
use acc_base::designs::Design;
use acc_base::machines::Call;
use acc_base::numbers::is_small;

/// Whether each number is within 2^45 of 0.
fn all_small(numbers: &[i64]) -> bool
    ensures { result ≡ list_all is_small numbers.now }
{
    numbers.iter().all(|n| is_small(*n))
}

/// Whether an abort may be asked for there.
fn ask_fits(ask: Option<u32>) -> bool
    ensures { result ≡ ask_fits ask }
{
    match ask {
        Some(steps) => steps <= LATEST_ASK,
        None => true,
    }
}

/// Whether the type exists and has so many parameters, and the call's numbers are in range.
pub fn call_fits(d: &Design, call: &Call) -> bool
    ensures { result ≡ call_fits (slice_get d.now.types call.now.ty) call.now }
{
    match d.types.as_slice().get(call.ty as usize) {
        Some(x) => {
            call.params.len() as u64 == x.params as u64
                && all_small(call.params.as_slice())
                && all_small(call.tape.as_slice())
                && call.tape.len() <= LONGEST_TAPE
                && ask_fits(call.ask)
        }
        None => false,
    }
}
