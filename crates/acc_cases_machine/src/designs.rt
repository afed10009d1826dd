//! Designs that are read.
ghost use Rattle.std.specs.Prelude.{IsTrue};
ghost use Rattle.acc_base.specs.Runnable.{IsRunnable};

use acc_base::designs::Design;
use acc_form::well_formed;
use acc_parse::{ParseError, parse};
use std::alloc::{AllocError, Global};

/// The design of a text, if it is one.
fn read(alloc: Global, text: &str) -> Result<Option<Design>, AllocError> {
    match parse(alloc, text.as_bytes()) {
        Ok(design) => Ok(Some(design)),
        Err(ParseError::Memory) => Err(AllocError),
        Err(ParseError::Syntax(_) | ParseError::Name(_) | ParseError::Limit(_, _)) => Ok(None),
    }
}

/// Takes the design of a text in place of what was there.
pub fn renew(alloc: Global, design: &mut Option<Design>, text: &str) -> Result<(), AllocError> {
    *design = read(alloc, text)?;
    Ok(())
}

/// Whether a design keeps the form rules, so that it can be run.
#[tactic(auto, using(crate::proofs::Runs::formed_runs))]
pub fn is_formed(design: &Design) -> bool
    ensures { IsTrue result → IsRunnable design.now }
{
    well_formed(design).is_ok()
}
