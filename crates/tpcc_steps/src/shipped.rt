//! The shipped design of TPC-C, and its text.
ghost use Rattle.std.specs.Prelude.{◌≡◌, IfOk};
ghost use Rattle.acc_print.specs.Designs.{printed};
ghost use Rattle.tpcc_steps.specs.ShippedText.{shipped_design};

use crate::texts::source;
use acc_base::designs::Design;
use acc_print::{PrintError, print};
use acc_shipped::spelled;
use std::alloc::{AllocError, Global};

/// Why the shipped design isn't handed out.
#[derive(Clone, Copy, Debug, PartialEq, Eq)]
pub enum StepsError {
    /// Memory ran out.
    Memory,
}

impl From<AllocError> for StepsError {
    fn from(_: AllocError) -> Self {
        StepsError::Memory
    }
}

impl From<PrintError> for StepsError {
    fn from(e: PrintError) -> Self {
        match e {
            PrintError::Memory => StepsError::Memory,
        }
    }
}

/// The shipped design: the tables, transactions and assertions that the text spells.
pub fn shipped(alloc: Global) -> Result<Design, StepsError>
    ensures { IfOk result (λ d. d ≡ shipped_design) }
{
    let text = source(alloc)?;
    Ok(spelled(alloc, text.as_slice())?)
}

/// The printed text of the shipped design.
pub fn text(alloc: Global) -> Result<Vec<u8>, StepsError>
    ensures { IfOk result (λ text. text.items ≡ printed shipped_design) }
{
    Ok(print(alloc, &shipped(alloc)?)?)
}
