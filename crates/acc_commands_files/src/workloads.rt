//! The designs that the program brings along, and scripts of TPC-C's calls.
ghost use Rattle.std.specs.Prelude.{◌≡◌, IfOk};
ghost use Rattle.acc_commands_inputs.specs.Answers.{said_alone};
ghost use Rattle.acc_commands_files.specs.Workloads.{PrintsShipped, PrintsBooking, load_said, PrintsLoad, mix_said, PrintsMix};

use acc_booking::BookError;
use acc_commands_inputs::{AskedScale, Mix};
use acc_journalled::{Answer, Ending};
use std::alloc::{AllocError, Global};
use tpcc_gen::{load, mix};
use tpcc_steps::{StepsError, text};

/// Prints the shipped design.
pub fn print_shipped(alloc: Global) -> Result<Answer, AllocError>
    ensures { IfOk result (λ a. PrintsShipped (said_alone a)) }
{
    match text(alloc) {
        Ok(text) => Ok(Answer {
            ending: Ending::Done,
            text,
        }),
        Err(StepsError::Memory) => Err(AllocError),
    }
}

/// Prints the shipped booking design.
pub fn print_booking(alloc: Global) -> Result<Answer, AllocError>
    ensures { IfOk result (λ a. PrintsBooking (said_alone a)) }
{
    match acc_booking::text(alloc) {
        Ok(text) => Ok(Answer {
            ending: Ending::Done,
            text,
        }),
        Err(BookError::Memory) => Err(AllocError),
    }
}

/// The script that loads a scale. It is empty for one that no load may have; no words ask for such a one.
pub(crate) fn load_script(alloc: Global, scale: AskedScale) -> Result<Vec<u8>, AllocError>
    ensures { IfOk result (λ text. text.items ≡ load_said scale) }
{
    if scale.is_fit() {
        load(alloc, scale.warehouses, scale.items, scale.customers)
    } else {
        Ok(Vec::new(alloc))
    }
}

/// Prints the script that loads a scale.
pub fn print_load(alloc: Global, scale: AskedScale) -> Result<Answer, AllocError>
    ensures { IfOk result (λ a. PrintsLoad scale (said_alone a)) }
{
    Ok(Answer {
        ending: Ending::Done,
        text: load_script(alloc, scale)?,
    })
}

/// The script of a mix. It is empty for one that is too large; no words ask for such a one.
pub(crate) fn mix_script(alloc: Global, asked: Mix) -> Result<Vec<u8>, AllocError>
    ensures { IfOk result (λ text. text.items ≡ mix_said asked) }
{
    if asked.is_fit() {
        let AskedScale {
            warehouses,
            items,
            customers,
        } = asked.scale;
        mix(
            alloc,
            warehouses,
            items,
            customers,
            asked.count,
            asked.start,
        )
    } else {
        Ok(Vec::new(alloc))
    }
}

/// Prints the script of a mix.
pub fn print_mix(alloc: Global, asked: Mix) -> Result<Answer, AllocError>
    ensures { IfOk result (λ a. PrintsMix asked (said_alone a)) }
{
    Ok(Answer {
        ending: Ending::Done,
        text: mix_script(alloc, asked)?,
    })
}
