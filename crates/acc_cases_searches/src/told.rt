//! What the lines so far have given.
use crate::certificates::certificate;
use acc_axioms::nodes::{Cert, Proof};
use acc_cases_sequents::given::CaseGiven;
use std::alloc::{AllocError, Global};

/// What the lines so far have given: a design, a sequent and hints, and a certificate with how many of its proofs were asked for.
#[derive(Drop)]
pub struct Told {
    pub given: CaseGiven,
    pub cert: Option<Cert>,
    asked: usize,
}

impl Told {
    /// Nothing so far.
    pub fn new(alloc: Global) -> Self {
        Told {
            given: CaseGiven::new(alloc),
            cert: None,
            asked: 0,
        }
    }

    /// Takes what a line gives, if it gives something.
    pub fn take(&mut self, alloc: Global, line: &str) -> Result<(), AllocError> {
        let (verb, text) = line.split_once(' ').unwrap_or((line, ""));
        match verb {
            "certificate" => {
                self.cert = certificate(alloc, text)?;
                self.asked = 0;
            }
            "next" => self.asked = self.asked.saturating_add(1),
            _ => self.given.take(alloc, line)?,
        }
        Ok(())
    }

    /// The proof that was asked for last, if the certificate has so many.
    pub fn proof(&self) -> Option<&Proof> {
        let place = self.asked.checked_sub(1)?;
        self.cert.as_ref()?.proofs.as_slice().get(place)
    }
}
