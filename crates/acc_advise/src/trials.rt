//! Whether obligations are proved, one search each.
ghost use Rattle.std.specs.Prelude.{◌≡◌, ◌++◌, All, IfErr, IfOk, OnOk};
ghost use Rattle.std.specs.List.{AllByRecursion};
ghost use Rattle.acc_formed.specs.WellFormed.{IsWellFormed};
ghost use Rattle.acc_oblig_places.specs.ManyEntries.{with_entries};
ghost use Rattle.acc_oblig_places.specs.Rooms.{IsSmallEntry};
ghost use Rattle.acc_cert_prove.specs.Findings.{HasEnded, finding_proofs};
ghost use Rattle.acc_cert_prove.specs.Founds.{found_proofs};
ghost use Rattle.acc_advise.specs.TriedDesigns.{spares_in};
ghost use Rattle.acc_advise.specs.Stops.{first_stop, later_stop, stop_of, Ends, Tries};
ghost use Rattle.acc_advise.specs.Cases.{IsCase, IsMemory, TriesAll};

use crate::advice::{AdviseError, Obstacle};
use crate::spares::{Inquiry, spares};
use acc_axioms::nodes::Proof;
use acc_base::designs::{Design, Entry};
use acc_base::sequences::Seq;
use acc_base::sequents::{Origin, Sequent};
use acc_cert_prove::{Finding, Found, SearchError, Searchers};
use std::alloc::{AllocError, Global};

/// What comes of obligations that are to be proved.
#[derive(Drop)]
pub enum SpareTrial {
    /// Each is proved: the proofs, in their order.
    Proved(Seq<Proof>),
    /// The first that isn't proved comes from here, for this reason.
    Stopped(Origin, Obstacle),
}

/// Keeps the first reason why a proof isn't found.
fn keep_stop(stop: &mut Option<(Origin, Obstacle)>, origin: Origin, why: Obstacle)
    ensures { stop.new ≡ later_stop stop.old origin why }
{
    if stop.is_none() {
        *stop = Some((origin, why));
    }
}

/// Adds the proof that a search found, or keeps why it found none.
fn add_found(
    finding: Finding,
    proofs: &mut Vec<Proof>,
    stop: &mut Option<(Origin, Obstacle)>,
) -> Result<(), AllocError>
    ensures proofs { OnOk result (proofs.new.items ≡ proofs.old.items ++ found_proofs finding.found) }
    ensures stop { OnOk result (stop.new ≡ stop_of stop.old finding) }
    ensures ended { OnOk result (HasEnded finding) }
{
    let origin = finding.origin;
    match finding.found {
        Ok(Found::Proved(proof)) => {
            proofs.push(proof)?;
            Ok(())
        }
        Ok(Found::Unproved(leaf, point)) => {
            keep_stop(stop, origin, Obstacle::Open(leaf, point));
            Ok(())
        }
        Err(SearchError::Crowded) => {
            keep_stop(stop, origin, Obstacle::Crowded);
            Ok(())
        }
        Err(SearchError::Wide) => {
            keep_stop(stop, origin, Obstacle::Wide);
            Ok(())
        }
        Err(SearchError::Many) => {
            keep_stop(stop, origin, Obstacle::Many);
            Ok(())
        }
        Err(SearchError::Memory) => Err(AllocError),
    }
}

/// Adds the proofs that searches found, and gives the first reason why one isn't found, if there is one.
fn add_all(
    findings: Seq<Finding>,
    proofs: &mut Vec<Proof>,
) -> Result<Option<(Origin, Obstacle)>, AllocError>
    ensures proofs { OnOk result (proofs.new.items ≡ proofs.old.items ++ finding_proofs findings) }
    ensures stop { IfOk result (λ stop. stop ≡ first_stop findings) }
    ensures ended { OnOk result (AllByRecursion HasEnded findings) }
{
    let mut stop = None;
    for finding in findings.into_vec() {
        add_found(finding, proofs, &mut stop)?;
    }
    Ok(stop)
}

/// What comes of obligations by what their searches found.
fn ended(alloc: Global, findings: Seq<Finding>) -> Result<SpareTrial, AllocError>
    ensures { IfOk result (Ends findings) }
{
    let mut proofs = Vec::new(alloc);
    match add_all(findings, &mut proofs)? {
        None => Ok(SpareTrial::Proved(Seq::from_vec(proofs))),
        Some((origin, why)) => Ok(SpareTrial::Stopped(origin, why)),
    }
}

/// Tries to prove obligations, by a search for each.
fn searched<S: Searchers>(
    alloc: Global,
    d: &Design,
    sequents: &[Sequent],
    searchers: &S,
) -> Result<SpareTrial, AllocError>
    requires searching { S.ready searchers.now }
    requires formed { IsWellFormed d.now }
    ensures { IfOk result (Tries d.now sequents.now) }
{
    let findings = searchers.search_all(alloc, d, sequents)?;
    ended(alloc, findings)
}

/// Tries to prove obligations, and answers as an advisor does.
fn searched_or<S: Searchers>(
    alloc: Global,
    d: &Design,
    sequents: &[Sequent],
    searchers: &S,
) -> Result<SpareTrial, AdviseError>
    requires searching { S.ready searchers.now }
    requires formed { IsWellFormed d.now }
    ensures tries { IfOk result (Tries d.now sequents.now) }
    ensures memory { IfErr result IsMemory }
{
    match searched(alloc, d, sequents, searchers) {
        Ok(trial) => Ok(trial),
        Err(AllocError) => Err(AdviseError::Memory),
    }
}

/// Tries to prove that the step spares the held point, where the design had these entries.
pub fn tried<S: Searchers>(
    alloc: Global,
    case: &Inquiry<'_>,
    entries: &[Entry],
    searchers: &S,
) -> Result<SpareTrial, AdviseError>
    requires searching { S.ready searchers.now }
    requires case { IsCase case.now }
    requires entries { All IsSmallEntry entries.now }
    ensures { TriesAll case.now (spares_in (with_entries case.now.d.now entries.now) case.now.question) result }
{
    match spares(alloc, case, entries) {
        Ok(sequents) => searched_or(alloc, case.d, sequents.as_slice(), searchers),
        Err(error) => Err(error),
    }
}
