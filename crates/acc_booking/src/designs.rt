//! The shipped booking design, and its text.
ghost use Rattle.std.specs.Prelude.{◌≡◌, IfOk};
ghost use Rattle.acc_print.specs.Designs.{printed};
ghost use Rattle.acc_booking.specs.BookingText.{booking_design};

use crate::texts::SOURCE;
use acc_base::designs::Design;
use acc_print::{PrintError, print};
use acc_shipped::spelled;
use std::alloc::{AllocError, Global};

/// Why the shipped booking design isn't handed out, or rows aren't judged.
#[derive(Clone, Copy, Debug, PartialEq, Eq)]
pub enum BookError {
    /// Memory ran out.
    Memory,
}

impl From<AllocError> for BookError {
    fn from(_: AllocError) -> Self {
        BookError::Memory
    }
}

impl From<PrintError> for BookError {
    fn from(e: PrintError) -> Self {
        match e {
            PrintError::Memory => BookError::Memory,
        }
    }
}

/// The shipped booking design: the tables, transactions and assertions that the text spells.
pub fn shipped(alloc: Global) -> Result<Design, BookError>
    ensures { IfOk result (λ d. d ≡ booking_design) }
{
    Ok(spelled(alloc, SOURCE)?)
}

/// The printed text of the shipped booking design.
pub fn text(alloc: Global) -> Result<Vec<u8>, BookError>
    ensures { IfOk result (λ text. text.items ≡ printed booking_design) }
{
    Ok(print(alloc, &shipped(alloc)?)?)
}
