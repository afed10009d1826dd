//! Whether a design is the shipped booking design, and what is said of one that isn't.
ghost use Rattle.std.specs.Prelude.{◌≡◌, IfOk, codes};
ghost use Rattle.acc_base.specs.Lines.{line};
ghost use Rattle.acc_journalled.specs.declared.answers.Ending.TheVariants.{DesignRefused};
ghost use Rattle.acc_print.specs.Designs.{printed};
ghost use Rattle.acc_commands_inputs.specs.Answers.{said_alone};
ghost use Rattle.acc_commands_inputs.specs.Bookings.{FindsBooking};
ghost use Rattle.acc_commands_inputs.specs.Text.{Says};

use acc_base::designs::Design;
use acc_booking::{BookError, text};
use acc_journalled::{Answer, Ending, one_line};
use acc_print::{PrintError, print};
use std::alloc::{AllocError, Global};

/// A design that is the shipped booking design, or what is answered where it is another.
#[derive(Drop)]
pub enum FoundBooking {
    Found,
    Refused(Answer),
}

/// The printed text of a design.
fn printed(alloc: Global, d: &Design) -> Result<Vec<u8>, AllocError>
    ensures { IfOk result (λ text. text.items ≡ printed d.now) }
{
    match print(alloc, d) {
        Ok(text) => Ok(text),
        Err(PrintError::Memory) => Err(AllocError),
    }
}

/// What is answered to a design that isn't the shipped booking design.
fn booking_refusal(alloc: Global) -> Result<Answer, AllocError>
    ensures { IfOk result (λ a. Says DesignRefused (line (codes "refused schema 1")) (said_alone a)) }
{
    one_line(alloc, Ending::DesignRefused, "refused schema 1")
}

/// Tells whether a design is the shipped booking design: whether the two have one printed text.
pub fn find_booking(alloc: Global, d: &Design) -> Result<FoundBooking, AllocError>
    ensures { IfOk result (FindsBooking d.now) }
{
    let given = printed(alloc, d)?;
    let shipped = match text(alloc) {
        Ok(text) => text,
        Err(BookError::Memory) => return Err(AllocError),
    };
    if given == shipped {
        Ok(FoundBooking::Found)
    } else {
        Ok(FoundBooking::Refused(booking_refusal(alloc)?))
    }
}
