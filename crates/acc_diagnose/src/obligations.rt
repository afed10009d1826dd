//! What is told of a certificate that is refused with its design.
ghost use Rattle.acc_formed.specs.WellFormed.{IsWellFormed};

use acc_accept::{Refusal, obligations};
use acc_base::designs::Design;
use acc_base::sequents::{Origin, Rule};
use acc_diagnose_cert::{
    Marked, asserted_mark, obligation_hint, off_mark, path_mark, proof_mark, proofs_in,
};
use acc_diagnose_faults::{CertFault, tokens_of};
use acc_diagnose_openings::push_number;
use acc_diagnose_words::{begin_note, end_note, push_note, push_report};
use acc_oblig_goals::ObligError;
use acc_page::Page;
use std::alloc::{AllocError, Global};

/// A file that a command line names.
#[derive(Clone, Copy)]
pub struct File<'a> {
    pub name: &'a [u8],
    pub text: &'a [u8],
}

/// The place of an obligation in the list of a design, from 1, and how many there are.
#[derive(Clone, Copy)]
struct ObligationPlace {
    number: u64,
    count: u64,
}

/// Says what a mark says of a file.
fn push_mark(out: &mut Page, file: File, mark: &Marked) {
    push_report(out, file.name, file.text, mark.line, &mark.spot);
}

/// The place of the obligation that comes from here.
#[tactic(auto, using(acc_oblig_places::proofs::ManyEntries::formed_but_entries))]
fn place_of(
    alloc: Global,
    d: &Design,
    origin: &Origin,
) -> Result<Option<ObligationPlace>, AllocError>
    requires { IsWellFormed d.now }
{
    let sequents = match obligations(alloc, d) {
        Ok(sequents) => sequents,
        Err(ObligError::Wide(_)) => return Ok(None),
        Err(ObligError::Memory) => return Err(AllocError),
    };
    let list = sequents.as_slice();
    match list.iter().position(|sequent| sequent.origin == *origin) {
        Some(place) => Ok(Some(ObligationPlace {
            number: (place as u64).saturating_add(1),
            count: list.len() as u64,
        })),
        None => Ok(None),
    }
}

/// Puts a number, and of how many it is one.
fn push_place(out: &mut Page, place: ObligationPlace) {
    out.push(b"number ");
    out.push_number(place.number);
    out.push(b" of ");
    out.push_number(place.count);
}

/// The number that an obligation on ranges is about, as it is spelled; nothing for other obligations.
fn number_of(alloc: Global, d: &Design, origin: &Origin) -> Vec<u8> {
    let mut number = Page::new(alloc);
    push_number(&mut number, d, origin);
    number.into_bytes()
}

/// Says which assertion isn't shown, and by which path.
pub fn push_assertion(
    alloc: Global,
    out: &mut Page,
    d: &Design,
    design: File,
    origin: &Origin,
) -> Result<(), AllocError> {
    let tokens = tokens_of(alloc, design.text)?;
    let number = number_of(alloc, d, origin);
    if let Some(mark) = asserted_mark(alloc, design.text, tokens.as_slice(), d, origin, &number) {
        push_mark(out, design, &mark);
    }
    if let Some(mark) = path_mark(alloc, design.text, tokens.as_slice(), origin) {
        push_mark(out, design, &mark);
    }
    Ok(())
}

/// Says that the certificate has no proof of an obligation.
fn push_missing(out: &mut Page, certificate: File, place: ObligationPlace) {
    begin_note(out, certificate.name);
    out.push(b"the certificate has ");
    out.push_number(proofs_in(certificate.text));
    out.push(b" proofs, and none for this obligation, ");
    push_place(out, place);
    end_note(
        out,
        b"a certificate has a proof for each obligation of its design, in their order; this one may be of another design",
    );
}

/// Says what is wrong with the proof of an obligation.
fn push_proof(
    alloc: Global,
    out: &mut Page,
    certificate: File,
    place: ObligationPlace,
    what: &[u8],
    rule: Rule,
) {
    let mut mark = proof_mark(alloc, certificate.text, place.number.saturating_sub(1));
    mark.spot.what.push(b"the proof here, ");
    push_place(&mut mark.spot.what, place);
    mark.spot.what.push(what);
    mark.spot.hint.push(
        b"the certificate may be of another design; or the design breaks the assertion, and then: ",
    );
    mark.spot.hint.push(obligation_hint(rule));
    push_mark(out, certificate, &mark);
}

/// Says that a number of an obligation is too large.
pub fn push_wide(out: &mut Page, design: File) {
    push_note(
        out,
        design.name,
        b"a number of this obligation is more than 2^120 away from 0, so that no proof is looked at",
        b"multiply by smaller numbers, or take further locals in place of a long chain of `let`",
    );
}

/// Says what the certificate has for an obligation that isn't shown.
fn push_lack(
    alloc: Global,
    out: &mut Page,
    certificate: File,
    refusal: &Refusal,
    place: ObligationPlace,
) {
    match refusal {
        Refusal::Missing(_) => push_missing(out, certificate, place),
        Refusal::NotProved(origin) => {
            let what = b", doesn't prove that";
            push_proof(alloc, out, certificate, place, what, origin.rule);
        }
        Refusal::ProofWide(origin) => {
            let what = b", has a number more than 2^120 away from 0 in its check";
            push_proof(alloc, out, certificate, place, what, origin.rule);
        }
        Refusal::ObligWide(_) | Refusal::Form(_, _) | Refusal::Memory => {}
    }
}

/// Says why a certificate doesn't do for its design.
fn push_lacking(
    alloc: Global,
    out: &mut Page,
    d: &Design,
    design: File,
    certificate: File,
    refusal: &Refusal,
) -> Result<(), AllocError>
    requires { IsWellFormed d.now }
{
    let origin = match refusal {
        Refusal::Missing(origin) | Refusal::NotProved(origin) | Refusal::ProofWide(origin) =>
            origin,
        Refusal::ObligWide(origin) => {
            push_assertion(alloc, out, d, design, origin)?;
            push_wide(out, design);
            return Ok(());
        }
        Refusal::Form(_, _) | Refusal::Memory => return Ok(()),
    };
    push_assertion(alloc, out, d, design, origin)?;
    if let Some(place) = place_of(alloc, d, origin)? {
        push_lack(alloc, out, certificate, refusal, place);
    }
    Ok(())
}

/// Says why a design isn't accepted with the bytes of a certificate.
pub fn push_fault(
    alloc: Global,
    out: &mut Page,
    d: &Design,
    design: File,
    certificate: File,
    fault: &CertFault,
) -> Result<(), AllocError>
    requires { IsWellFormed d.now }
{
    match fault {
        CertFault::Bytes(path) => {
            let mark = off_mark(alloc, certificate.text, path.as_slice());
            push_mark(out, certificate, &mark);
            Ok(())
        }
        CertFault::Lacks(refusal) => push_lacking(alloc, out, d, design, certificate, refusal),
    }
}
