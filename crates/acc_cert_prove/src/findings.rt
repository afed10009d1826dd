//! What the search for the proof of an obligation finds.
ghost use Rattle.std.specs.Prelude.{◌≡◌, IsTrue};
ghost use Rattle.acc_cert_bounds.specs.InBounds.{nodes as are_in_bounds};
ghost use Rattle.acc_formed.specs.WellFormed.{IsWellFormed};
ghost use Rattle.acc_prover.specs.Courses.{IsProof};
ghost use Rattle.acc_prover.specs.Tellings.{Tells, IfProved};
ghost use Rattle.acc_cert_prove.specs.Lines.{searched};
ghost use Rattle.acc_cert_prove.specs.Findings.{IsFinding};

use acc_base::designs::Design;
use acc_base::sequents::{Origin, Sequent};
use acc_oblig_hints::hints::hints_of;
use acc_prover::found::{Found, SearchError};
use acc_prover::searching::search;
use std::alloc::Global;

/// What the search for the proof of an obligation found, and where the obligation comes from.
#[derive(Drop)]
pub struct Finding {
    pub origin: Origin,
    pub found: Result<Found, SearchError>,
}

/// The search for the proof of an obligation, with its hints.
#[tactic(auto, using(acc_oblig_places::proofs::Small::design_small, acc_oblig_places::proofs::ManyEntries::formed_but_entries))]
pub fn searched(alloc: Global, d: &Design, q: &Sequent) -> Result<Found, SearchError>
    requires { IsWellFormed d.now }
    ensures kind { Tells result (searched d.now q.now) }
    ensures proof { IfProved result (IsProof d.now q.now) }
    ensures bounds { IfProved result (λ nodes. IsTrue (are_in_bounds nodes)) }
{
    let hints = hints_of(alloc, d, q)?;
    search(alloc, d, q, hints.as_slice())
}

/// What the search for the proof of an obligation finds, with its hints.
pub fn finding_of(alloc: Global, d: &Design, q: &Sequent) -> Finding
    requires { IsWellFormed d.now }
    ensures { IsFinding d.now q.now result }
{
    Finding {
        origin: q.origin,
        found: searched(alloc, d, q),
    }
}
