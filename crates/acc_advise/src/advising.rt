//! Which entry is advised.
ghost use Rattle.std.specs.Prelude.{◌≡◌, Some, None};
ghost use Rattle.acc_formed.specs.WellFormed.{IsWellFormed};
ghost use Rattle.acc_oblig_goals.specs.Causes.{first_wide, sequents};
ghost use Rattle.acc_oblig_places.specs.SeenPlaces.{point_place};
ghost use Rattle.acc_advise.specs.TriedDesigns.{free_drafts, point_place_at};
ghost use Rattle.acc_advise.specs.Advices.{Advises, asked};
ghost use Rattle.acc_advise.specs.Cases.{IsCase, TriesAll};
ghost use Rattle.acc_advise.specs.Stops.{AllProved};

use crate::advice::{Advice, AdviseError, Question};
use crate::candidates::candidates;
use crate::passes::settled;
use crate::spares::{Inquiry, Taken, place_at};
use crate::trials::{SpareTrial, tried};
use acc_base::designs::{At, Design, Side};
use acc_base::sequences::Seq;
use acc_cert_prove::Searchers;
use acc_oblig_places::places::PointPlace;
use std::alloc::Global;

/// The entry whose pairs can't be made more, where the step needs one.
fn keyed_advice<S: Searchers>(
    alloc: Global,
    case: &Inquiry<'_>,
    searchers: &S,
) -> Result<Advice, AdviseError>
    requires searching { S.ready searchers.now }
    requires case { IsCase case.now }
    requires narrow { first_wide (free_drafts case.now.d.now case.now.question) ≡ None }
    requires needed { ¬ AllProved case.now.d.now (sequents (free_drafts case.now.d.now case.now.question)) }
    ensures { Advises case.now.d.now case.now.question result }
{
    let pairs = candidates(alloc, case)?;
    let (grown, beyond) = settled(alloc, case, searchers, pairs.as_slice())?;
    Ok(Advice::Keyed(grown.pairs, grown.proofs, beyond))
}

/// Tries to prove that the step spares the held point without an entry.
fn tried_free<S: Searchers>(
    alloc: Global,
    case: &Inquiry<'_>,
    searchers: &S,
) -> Result<SpareTrial, AdviseError>
    requires searching { S.ready searchers.now }
    requires case { IsCase case.now }
    ensures { TriesAll case.now (free_drafts case.now.d.now case.now.question) result }
{
    let none = Seq::new(alloc);
    tried(alloc, case, none.as_slice(), searchers)
}

/// What is advised of two points.
fn advise_case<S: Searchers>(
    alloc: Global,
    case: &Inquiry<'_>,
    searchers: &S,
) -> Result<Advice, AdviseError>
    requires searching { S.ready searchers.now }
    requires case { IsCase case.now }
    ensures { Advises case.now.d.now case.now.question result }
{
    match tried_free(alloc, case, searchers) {
        Ok(SpareTrial::Proved(proofs)) => Ok(Advice::Free(proofs)),
        Ok(SpareTrial::Stopped(_, _)) => keyed_advice(alloc, case, searchers),
        Err(error) => Err(error),
    }
}

/// What is advised where a point is held.
fn advise_held<'a, S: Searchers>(
    alloc: Global,
    d: &'a Design,
    question: Question,
    held: PointPlace<'a>,
    searchers: &S,
) -> Result<Advice, AdviseError>
    requires searching { S.ready searchers.now }
    requires formed { IsWellFormed d.now }
    requires held { point_place_at d.now question.held ≡ Some (point_place held) }
    ensures { Advises d.now question result }
{
    match place_at(d, question.step) {
        Some(place) => {
            let point = place.point;
            let step = point.step(question.side);
            let side = question.side;
            let taken = Taken { place, side, step };
            let case = Inquiry {
                d,
                question,
                held,
                taken,
            };
            advise_case(alloc, &case, searchers)
        }
        None => Ok(Advice::Free(Seq::new(alloc))),
    }
}

/// Which entry lets the step of a point go where another is held, and forbids as little as the search can show. An entry with more pairs
/// forbids less; so its pairs are a set that can't be made larger, among the pairs of a held local and a local of the step that have one
/// name and that no undo step assigns.
///
/// `Free` where the step needs no entry. Else the set starts empty, and passes over the pairs that aren't in it add each with which all
/// that the step has to spare is proved, until a pass adds none; `Keyed` has the set, the proofs beside it, and for each other pair what is
/// first open with it.
///
/// `Wide` with the origin of the first obligation that has a number that is too large. `Memory` where memory ran out.
///
/// A pass tries a pair again only where the set has grown since its last try, and a try makes and searches all that the step has to
/// spare. So no obligation is searched twice: each has the relation that a pair of its set differs, and two different sets have none in
/// common. Where the set hasn't grown, what is known stays: `known_stays`.
pub fn advise<S: Searchers>(
    alloc: Global,
    d: &Design,
    held: At,
    step: At,
    side: Side,
    searchers: &S,
) -> Result<Advice, AdviseError>
    requires searching { S.ready searchers.now }
    requires formed { IsWellFormed d.now }
    ensures { Advises d.now (asked held step side) result }
{
    let question = Question { held, step, side };
    match place_at(d, held) {
        Some(place) => advise_held(alloc, d, question, place, searchers),
        None => Ok(Advice::Free(Seq::new(alloc))),
    }
}
