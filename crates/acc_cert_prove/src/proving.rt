//! A design's obligations are proved, or it is told which aren't.
ghost use Rattle.std.specs.Prelude.{◌≡◌, ◌++◌, codes, IsTrue, IfOk, OnOk};
ghost use Rattle.std.specs.List.{AllByRecursion};
ghost use Rattle.acc_base.specs.Lines.{line};
ghost use Rattle.acc_cert_bounds.specs.InBounds.{cert as is_in_bounds};
ghost use Rattle.acc_formed.specs.WellFormed.{IsWellFormed};
ghost use Rattle.acc_page.specs.Written.{Adds};
ghost use Rattle.acc_oblig_origins.specs.Origins.{origin_text};
ghost use Rattle.acc_cert_prove.specs.Lines.{open_lines};
ghost use Rattle.acc_cert_prove.specs.Findings.{HasEnded, finding_lines, finding_proofs};
ghost use Rattle.acc_cert_prove.specs.Provings.{IsWritten, Proves};
ghost use Rattle.acc_cert_prove.specs.Founds.{found_line, found_proofs, AddsProofs, Ends, ProvesAll};

use crate::findings::Finding;
use crate::lines::{push_ended, push_point};
use crate::searchers::Searchers;
use acc_accept::{ObligError, obligations};
use acc_axioms::nodes::{Cert, Proof};
use acc_base::designs::Design;
use acc_base::sequences::Seq;
use acc_base::sequents::{Origin, Sequent};
use acc_cert::write;
use acc_cert_read::errors::CertError;
use acc_oblig_origins::origins::push_origin;
use acc_page::Page;
use acc_progress::Progress;
use acc_prover::found::{Found, SearchError};
use std::alloc::{AllocError, Global};

/// What comes of proving a design's obligations.
#[derive(Drop)]
pub enum Proving {
    /// Each is proved: the certificate, as a line.
    Proved(Vec<u8>),
    /// Not all are proved: a line for each that isn't.
    Open(Vec<u8>),
    /// A number of one is too large: the line that says where the first such comes from.
    Wide(Vec<u8>),
}

/// Adds the proof that a search found, or the line of the obligation.
fn add_found(
    d: &Design,
    finding: Finding,
    proofs: &mut Vec<Proof>,
    lines: &mut Page,
) -> Result<(), AllocError>
    ensures lines { OnOk result (Adds lines.old lines.new (found_line d.now finding.origin finding.found)) }
    ensures proofs { OnOk result (proofs.new.items ≡ proofs.old.items ++ found_proofs finding.found) }
    ensures ended { OnOk result (HasEnded finding) }
{
    let origin = finding.origin;
    match finding.found {
        Ok(Found::Proved(proof)) => {
            proofs.push(proof)?;
            Ok(())
        }
        Ok(Found::Unproved(_, point)) => {
            push_point(lines, d, &origin, point.as_slice());
            Ok(())
        }
        Err(SearchError::Crowded) => {
            push_ended(lines, d, &origin, b"crowded");
            Ok(())
        }
        Err(SearchError::Wide) => {
            push_ended(lines, d, &origin, b"wide");
            Ok(())
        }
        Err(SearchError::Many) => {
            push_ended(lines, d, &origin, b"many");
            Ok(())
        }
        Err(SearchError::Memory) => Err(AllocError),
    }
}

/// Adds the proofs that searches found, or the lines of the obligations.
fn add_all(
    d: &Design,
    findings: Seq<Finding>,
    proofs: &mut Vec<Proof>,
    lines: &mut Page,
) -> Result<(), AllocError>
    ensures lines { OnOk result (Adds lines.old lines.new (finding_lines d.now findings)) }
    ensures proofs { OnOk result (proofs.new.items ≡ proofs.old.items ++ finding_proofs findings) }
    ensures ended { OnOk result (AllByRecursion HasEnded findings) }
{
    for finding in findings.into_vec() {
        add_found(d, finding, proofs, lines)?;
    }
    Ok(())
}

/// Adds the proofs of obligations that are searched at once, and the lines of those that aren't proved.
fn prove_at_once<S: Searchers>(
    alloc: Global,
    d: &Design,
    sequents: &[Sequent],
    searchers: &S,
    proofs: &mut Vec<Proof>,
    lines: &mut Page,
) -> Result<(), AllocError>
    requires searching { S.ready searchers.now }
    requires formed { IsWellFormed d.now }
    ensures lines { OnOk result (Adds lines.old lines.new (open_lines d.now sequents.now)) }
    ensures proofs { OnOk result (AddsProofs d.now sequents.now proofs.old.items proofs.new.items) }
{
    let findings = searchers.search_all(alloc, d, sequents)?;
    add_all(d, findings, proofs, lines)
}

/// Tells how far the search is: of so many obligations so many are left, and so many proofs are found.
fn tell<P: Progress>(progress: &mut P, obligations: usize, left: usize, found: usize) {
    let done = obligations.saturating_sub(left);
    let open = done.saturating_sub(found);
    progress.searched(done as u64, obligations as u64, open as u64);
}

/// Adds the proofs of obligations, and the lines of those that aren't proved.
fn prove_each<S: Searchers, P: Progress>(
    alloc: Global,
    d: &Design,
    sequents: &[Sequent],
    searchers: &S,
    proofs: &mut Vec<Proof>,
    lines: &mut Page,
    progress: &mut P,
) -> Result<(), AllocError>
    requires searching { S.ready searchers.now }
    requires formed { IsWellFormed d.now }
    ensures lines { OnOk result (Adds lines.old lines.new (open_lines d.now sequents.now)) }
    ensures proofs { OnOk result (AddsProofs d.now sequents.now proofs.old.items proofs.new.items) }
{
    let mut left = sequents;
    while !left.is_empty() {
        let count = searchers.at_once().max(1).min(left.len());
        let (next, behind) = left.split_at(count);
        prove_at_once(alloc, d, next, searchers, proofs, lines)?;
        left = behind;
        tell(progress, sequents.len(), left.len(), proofs.len());
    }
    Ok(())
}

/// A certificate, as a line.
fn certificate_line(alloc: Global, certificate: &Cert) -> Result<Vec<u8>, AllocError>
    ensures { IfOk result (λ text. IsTrue (is_in_bounds certificate.now) → IsWritten certificate.now text.items) }
{
    match write(alloc, certificate) {
        Ok(text) => ended_line(text),
        Err(CertError::NotCert(_)) | Err(CertError::Memory) => Err(AllocError),
    }
}

/// A text, and a line feed.
fn ended_line(text: Vec<u8>) -> Result<Vec<u8>, AllocError>
    ensures { IfOk result (λ ended. ended.items ≡ line text.items) }
{
    let mut text = text;
    text.push(b'\n')?;
    Ok(text)
}

/// The certificate of proofs where there are no lines, and else the lines.
fn ended(alloc: Global, proofs: Vec<Proof>, lines: Vec<u8>) -> Result<Proving, AllocError>
    ensures { IfOk result (Ends proofs.items lines.items) }
{
    if !lines.is_empty() {
        return Ok(Proving::Open(lines));
    }
    let certificate = Cert {
        proofs: Seq::from_vec(proofs),
    };
    Ok(Proving::Proved(certificate_line(alloc, &certificate)?))
}

/// Proves the obligations of a design.
fn prove_all<S: Searchers, P: Progress>(
    alloc: Global,
    d: &Design,
    sequents: &[Sequent],
    searchers: &S,
    progress: &mut P,
) -> Result<Proving, AllocError>
    requires searching { S.ready searchers.now }
    requires formed { IsWellFormed d.now }
    ensures { IfOk result (ProvesAll d.now sequents.now) }
{
    let mut proofs = Vec::new(alloc);
    let mut lines = Page::new(alloc);
    prove_each(
        alloc,
        d,
        sequents,
        searchers,
        &mut proofs,
        &mut lines,
        progress,
    )?;
    match lines.finish() {
        Some(lines) => ended(alloc, proofs, lines),
        None => Err(AllocError),
    }
}

/// What is said of an obligation that has a number that is too large.
fn wide_line(alloc: Global, d: &Design, origin: &Origin) -> Result<Vec<u8>, AllocError>
    ensures { IfOk result (λ text. text.items ≡ line (codes "refused wide " ++ origin_text d.now origin.now)) }
{
    let mut text = Page::new(alloc);
    text.push(b"refused wide ");
    push_origin(&mut text, d, origin);
    text.push(b"\n");
    text.finish().ok_or(AllocError)
}

/// Proves the obligations of a design, by a search for each, with the hints of its point and side.
///
/// `Proved` where all branches of each search are closed; then the design is accepted with the certificate, and so it is sound; and the
/// line is read as this certificate. `Open` where some aren't: a line for each obligation that isn't proved, in their order, with what
/// ended its search. `Wide` where a number of an obligation is too large. `AllocError` where memory ran out; nothing is told then. The
/// searchers are given the obligations in their order, so many at once as they take, and nothing that is told depends on that; behind these
/// searches `progress` is told how many obligations are done, and how many of these are open.
///
/// Besides the searches it takes the time of the obligations' length, and of what is written; and it waits for its searchers.
#[tactic(auto, using(acc_oblig_places::proofs::ManyEntries::formed_but_entries))]
pub fn prove<S: Searchers, P: Progress>(
    alloc: Global,
    d: &Design,
    searchers: &S,
    progress: &mut P,
) -> Result<Proving, AllocError>
    requires searching { S.ready searchers.now }
    requires formed { IsWellFormed d.now }
    ensures { IfOk result (Proves d.now) }
{
    match obligations(alloc, d) {
        Ok(sequents) => prove_all(alloc, d, sequents.as_slice(), searchers, progress),
        Err(ObligError::Wide(origin)) => Ok(Proving::Wide(wide_line(alloc, d, &origin)?)),
        Err(ObligError::Memory) => Err(AllocError),
    }
}
