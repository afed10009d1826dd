//! Whether a design is accepted with a certificate.
ghost use Rattle.std.specs.Prelude.{◌≡◌, slice_get, IfOk, IfErr};
ghost use Rattle.acc_base.specs.Soundness.{IsSound};
ghost use Rattle.acc_formed.specs.WellFormed.{IsWellFormed};
ghost use Rattle.acc_accept.specs.Accepting.{Accepts, Refuses, Judges, lack_of, TellsLack, TellsFirstLack, IsOutOfMemory};

use crate::listing::obligations;
use crate::refusals::Refusal;
use acc_axioms::nodes::{Cert, Proof};
use acc_base::designs::Design;
use acc_base::sequents::Sequent;
use acc_form::{FormError, well_formed};
use acc_lift::Accepted;
use acc_proof::checks::proves;
use acc_proof::errors::ProofError;
use std::alloc::Global;

/// Whether an obligation is proved by the proof at its place, or what is wrong there.
fn prove_at(
    alloc: Global,
    d: &Design,
    sequent: &Sequent,
    proofs: &[Proof],
    place: usize,
) -> Result<(), Refusal>
    ensures { TellsLack result (lack_of d.now sequent.now (slice_get proofs.now place)) }
{
    let Some(proof) = proofs.get(place) else {
        return Err(Refusal::Missing(sequent.origin));
    };
    match proves(alloc, d, sequent, proof) {
        Ok(true) => Ok(()),
        Ok(false) => Err(Refusal::NotProved(sequent.origin)),
        Err(ProofError::Wide(_)) => Err(Refusal::ProofWide(sequent.origin)),
        Err(ProofError::Memory) => Err(Refusal::Memory),
    }
}

/// Whether each obligation is proved by the proof at its place, or what is wrong with the first that isn't.
fn prove_all(
    alloc: Global,
    d: &Design,
    sequents: &[Sequent],
    proofs: &[Proof],
) -> Result<(), Refusal>
    ensures { TellsFirstLack d.now sequents.now proofs.now result }
{
    for (place, sequent) in sequents.iter().enumerate() {
        prove_at(alloc, d, sequent, proofs, place)?;
    }
    Ok(())
}

/// Whether the obligations of a well-formed design are proved.
#[tactic(auto, using(acc_oblig_places::proofs::ManyEntries::formed_but_entries))]
fn judge_proofs(alloc: Global, d: &Design, certificate: &Cert) -> Result<(), Refusal>
    requires { IsWellFormed d.now }
    ensures { Judges d.now certificate.now result }
{
    let sequents = obligations(alloc, d)?;
    prove_all(alloc, d, sequents.as_slice(), certificate.proofs.as_slice())
}

/// Whether a design is accepted with a certificate.
fn judge(alloc: Global, d: &Design, certificate: &Cert) -> Result<(), Refusal>
    ensures { Judges d.now certificate.now result }
{
    match well_formed(d) {
        Ok(()) => judge_proofs(alloc, d, certificate),
        Err(FormError::Bad(rule, line)) => Err(Refusal::Form(rule, line)),
        Err(FormError::Memory) => Err(Refusal::Memory),
    }
}

/// Accepts a design whose obligations the certificate proves, one proof an obligation, in their order. Then it is sound, and its
/// type keeps that. Proofs behind those of the obligations aren't looked at.
///
/// Refusals come in this order, and hand the design back. `Form` where the design isn't well-formed; `ObligWide` where a number of an
/// obligation is too large; then for the first obligation that isn't proved `Missing` where the certificate has no proof at its
/// place, `ProofWide` where a number of that proof's check is too large, `NotProved` where it is no proof of the obligation.
/// `Memory` where memory ran out.
pub fn accept(alloc: Global, d: Design, certificate: &Cert) -> Result<Accepted, (Refusal, Design)>
    ensures accepted { IfOk result (λ a. (a ≡ d) × Accepts d certificate.now) }
    ensures sound { IfOk result (λ a. IsSound d) }
    ensures refused { IfErr result (λ e. Refuses d certificate.now e.0) }
    ensures same { IfErr result (λ e. e.1 ≡ d) }
    // What is to be accepted is refused for want of memory alone.
    ensures only { Accepts d certificate.now → IfErr result (λ e. IsOutOfMemory e.0) }
{
    match judge(alloc, &d, certificate) {
        Ok(()) => Ok(Accepted::new(d)),
        Err(refusal) => Err((refusal, d)),
    }
}
