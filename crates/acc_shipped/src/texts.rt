//! Reading the text of a design that the program brings along.
ghost use Rattle.std.specs.Prelude.{◌≡◌, IfOk};
ghost use Rattle.acc_parse.specs.Texts.{IsDesignText};
ghost use Rattle.acc_shipped.specs.Texts.{design_in};

use acc_base::designs::Design;
use acc_parse::{ParseError, parse};
use std::alloc::{AllocError, Global};

/// Memory ran out while a text was read.
fn lacking(error: ParseError) -> AllocError
    requires { error ≡ ParseError.Memory }
{
    match error {
        ParseError::Memory => AllocError,
        ParseError::Syntax(_) | ParseError::Name(_) | ParseError::Limit(_, _) => unreachable!(),
    }
}

/// The design that a design's text spells.
pub fn spelled(alloc: Global, text: &[u8]) -> Result<Design, AllocError>
    requires { IsDesignText text.now (design_in text.now) }
    ensures { IfOk result (λ d. d ≡ design_in text.now) }
{
    match parse(alloc, text) {
        Ok(design) => Ok(design),
        Err(error) => Err(lacking(error)),
    }
}
