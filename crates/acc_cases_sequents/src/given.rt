//! What the lines of cases so far have given.
use crate::{designs, hints, sequents};
use acc_base::designs::Design;
use acc_base::forms::Lin;
use acc_base::sequences::Seq;
use acc_base::sequents::Sequent;
use std::alloc::{AllocError, Global};

/// The design, the sequent and the hints, as the lines spelled them.
#[derive(Drop)]
pub struct CaseGiven {
    pub design: Option<Design>,
    pub sequent: Option<Sequent>,
    pub hints: Option<Seq<Lin>>,
}

impl CaseGiven {
    /// Nothing so far.
    pub fn new(alloc: Global) -> Self {
        CaseGiven {
            design: None,
            sequent: None,
            hints: Some(Seq::new(alloc)),
        }
    }

    /// Takes what a line gives, if it gives something.
    pub fn take(&mut self, alloc: Global, line: &str) -> Result<(), AllocError> {
        let (verb, text) = line.split_once(' ').unwrap_or((line, ""));
        match verb {
            "design" => self.design = designs::read(alloc, text)?,
            "sequent" => self.sequent = sequents::read(alloc, text)?,
            "hints" => self.hints = hints::read(alloc, text),
            _ => {}
        }
        Ok(())
    }

    /// Whether a line asks nothing.
    pub fn is_told(&self, line: &str) -> bool {
        line.starts_with("design") || line.starts_with("sequent") || line.starts_with("hints")
    }
}
