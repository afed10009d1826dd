//! Who searches for the proofs of obligations.
ghost use Rattle.std.specs.Prelude.{◌≡◌, IfOk};
ghost use Rattle.acc_formed.specs.WellFormed.{IsWellFormed};
ghost use Rattle.acc_cert_prove.specs.Findings.{AreFindings};

use crate::findings::{Finding, finding_of};
use acc_base::designs::Design;
use acc_base::sequences::Seq;
use acc_base::sequents::Sequent;
use std::alloc::{AllocError, Global};

/// Who searches for the proofs of obligations. Each obligation is searched by itself: nothing of what is found depends on how many search,
/// or on who is done when.
pub trait Searchers {
    // what has to be so of them
    ghost ready: { Self → Type 0 };

    /// How many obligations they are given at once; 0 counts as 1.
    fn at_once(&self) -> usize;

    /// Searches for the proof of each of the obligations, with its hints, and gives what is found, in their order. `AllocError` where
    /// memory lacked for the list.
    fn search_all(
        &self,
        alloc: Global,
        d: &Design,
        sequents: &[Sequent],
    ) -> Result<Seq<Finding>, AllocError>
        requires ready { ready self.now }
        requires formed { IsWellFormed d.now }
        ensures { IfOk result (AreFindings d.now sequents.now) };
}

/// The caller alone, who searches for one proof after the other. It waits for nobody.
#[derive(Clone, Copy)]
pub struct InTurn;

impl Searchers for InTurn {
    ghost ready = { λ s. Unit {0} };

    fn at_once(&self) -> usize {
        1
    }

    fn search_all(
        &self,
        alloc: Global,
        d: &Design,
        sequents: &[Sequent],
    ) -> Result<Seq<Finding>, AllocError> {
        let mut findings = Seq::new(alloc);
        for q in sequents {
            findings.push(finding_of(alloc, d, q))?;
        }
        Ok(findings)
    }
}

/// Searchers that are a call, such as a closure that starts threads.
#[derive(Clone, Copy)]
pub struct Searching<F> {
    at_once: usize,
    search: F,
}

impl<F> Searching<F> {
    /// Those that are this call, which is given so many obligations at once.
    pub fn new(at_once: usize, search: F) -> Self
    where
        F: Fn(Global, &Design, &[Sequent]) -> Result<Seq<Finding>, AllocError>,
        ensures { result.search ≡ search }
    {
        Searching { at_once, search }
    }
}

impl<F: Fn(Global, &Design, &[Sequent]) -> Result<Seq<Finding>, AllocError>> Searchers
    for Searching<F> {
    ghost use Rattle.acc_cert_prove.specs.Findings.{SearchesSo};

    ghost ready = { λ s. SearchesSo (F.pre s.search) (F.post s.search) };

    fn at_once(&self) -> usize {
        self.at_once
    }

    fn search_all(
        &self,
        alloc: Global,
        d: &Design,
        sequents: &[Sequent],
    ) -> Result<Seq<Finding>, AllocError> {
        (self.search)(alloc, d, sequents)
    }
}
