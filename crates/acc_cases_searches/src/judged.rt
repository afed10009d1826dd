//! Whether a proof is one of the sequent.
use acc_axioms::nodes::Proof;
use acc_cases_sequents::given::CaseGiven;
use acc_proof::checks::proves;
use acc_proof::errors::ProofError;
use std::alloc::{AllocError, Global};
use std::fmt::Write;

fn push_verdict(
    out: &mut String,
    verdict: Result<bool, ProofError>,
    yes: &str,
) -> Result<(), AllocError> {
    match verdict {
        Ok(true) => out.push_str(yes),
        Ok(false) => out.push_str("no proof"),
        Err(ProofError::Wide(node)) => write!(out, "wide at {node}"),
        Err(ProofError::Memory) => Err(AllocError),
    }
}

/// Pushes whether a proof is one of the sequent, with these words where it is.
pub fn push_judged(
    alloc: Global,
    out: &mut String,
    given: &CaseGiven,
    proof: Option<&Proof>,
    yes: &str,
) -> Result<(), AllocError> {
    match (&given.design, &given.sequent, proof) {
        (Some(design), Some(sequent), Some(proof)) => {
            push_verdict(out, proves(alloc, design, sequent, proof), yes)
        }
        (Some(_), Some(_), None) => out.push_str("no proof left"),
        _ => out.push_str("no design or no sequent"),
    }
}
