//! The obligations that a step spares what is asserted at a held point.
ghost use Rattle.std.specs.Prelude.{◌≡◌, ◌+◌, ◌<◌, ◌^◌, [], All, option_map};
ghost use Rattle.acc_oblig_goals.specs.Causes.{Adds};
ghost use Rattle.acc_oblig_places.specs.ManyEntries.{with_entries};
ghost use Rattle.acc_oblig_places.specs.Rooms.{HasFewVars, IsSmallDesign, IsSmallEntry, IsSmallPointPlace, IsSmallStep};
ghost use Rattle.acc_oblig_places.specs.SeenPlaces.{point_place};
ghost use Rattle.acc_advise.specs.TriedDesigns.{clause_spares, point_in, point_place_at, spares_in, spares_of};
ghost use Rattle.acc_advise.specs.Cases.{IsCase, Makes};

use crate::advice::{AdviseError, Question};
use acc_base::designs::{At, Design, Entry, Side, TxType};
use acc_base::forms::Clause;
use acc_base::sequences::Seq;
use acc_base::sequents::Sequent;
use acc_base::steps::Step;
use acc_oblig_paths::{ObligError, add_spare_among};
use acc_oblig_places::places::{PathPlace, PointPlace};
use std::alloc::Global;

/// A step that is taken, and where.
#[derive(Drop)]
pub struct Taken<'a> {
    pub place: PointPlace<'a>,
    pub side: Side,
    pub step: &'a Step,
}

/// What is asked of a design, with the held point and the step.
#[derive(Drop)]
pub struct Inquiry<'a> {
    pub d: &'a Design,
    pub question: Question,
    pub held: PointPlace<'a>,
    pub taken: Taken<'a>,
}

/// The point of a type at a place, if there is one.
fn point_in<'a>(at: At, ty: &'a TxType) -> Option<PointPlace<'a>>
    ensures { option_map point_place result ≡ point_in at ty.now }
{
    match ty.points.as_slice().get(at.point as usize) {
        Some(point) => Some(PointPlace { at, ty, point }),
        None => None,
    }
}

/// The point at a place, if there is one.
pub fn place_at<'a>(d: &'a Design, at: At) -> Option<PointPlace<'a>>
    ensures { option_map point_place result ≡ point_place_at d.now at }
{
    match d.types.as_slice().get(at.ty as usize) {
        Some(ty) => point_in(at, ty),
        None => None,
    }
}

/// Adds the obligations that a step of a point spares a clause of a held point, path by path, where the design had these entries.
fn add_clause_spares(
    alloc: Global,
    out: &mut Seq<Sequent>,
    d: &Design,
    entries: &[Entry],
    held: &PointPlace<'_>,
    taken: &Taken<'_>,
    k: u32,
    c: &Clause,
) -> Result<(), ObligError>
    requires design { IsSmallDesign d.now }
    requires entries { All IsSmallEntry entries.now }
    requires held { IsSmallPointPlace (point_place held.now) }
    requires place { IsSmallPointPlace (point_place taken.now.place) }
    requires step { IsSmallStep taken.now.step.now }
    requires number { k + 1 < 2 ^ 32 }
    requires few { HasFewVars c.now }
    ensures { Adds result out.old out.new (clause_spares (with_entries d.now entries.now) taken.now.side (point_place held.now)
        (point_place taken.now.place) taken.now.step.now k c.now) }
{
    let paths = taken.step.paths.as_slice();
    for (j, path) in paths.iter().enumerate() {
        let q = PathPlace {
            at: taken.place.at,
            side: taken.side,
            number: j as u32,
            ty: taken.place.ty,
            point: taken.place.point,
            step: taken.step,
            path,
        };
        add_spare_among(alloc, out, d, entries, &q, held, k, c)?;
    }
    Ok(())
}

/// Adds the obligations that a step spares the clauses of a held point, where the design had these entries.
fn add_spares(
    alloc: Global,
    out: &mut Seq<Sequent>,
    d: &Design,
    entries: &[Entry],
    held: &PointPlace<'_>,
    taken: &Taken<'_>,
) -> Result<(), ObligError>
    requires design { IsSmallDesign d.now }
    requires entries { All IsSmallEntry entries.now }
    requires held { IsSmallPointPlace (point_place held.now) }
    requires place { IsSmallPointPlace (point_place taken.now.place) }
    requires step { IsSmallStep taken.now.step.now }
    ensures { Adds result out.old out.new (spares_of (with_entries d.now entries.now) taken.now.side (point_place held.now)
        (point_place taken.now.place) taken.now.step.now) }
{
    let clauses = held.point.clauses.as_slice();
    for (k, c) in clauses.iter().enumerate() {
        add_clause_spares(alloc, out, d, entries, held, taken, k as u32, c)?;
    }
    Ok(())
}

/// Adds the obligations that the step spares the held point, where the design had these entries.
fn add_case_spares(
    alloc: Global,
    out: &mut Seq<Sequent>,
    case: &Inquiry<'_>,
    entries: &[Entry],
) -> Result<(), ObligError>
    requires case { IsCase case.now }
    requires entries { All IsSmallEntry entries.now }
    ensures { Adds result out.old out.new (spares_in (with_entries case.now.d.now entries.now) case.now.question) }
{
    add_spares(alloc, out, case.d, entries, &case.held, &case.taken)
}

/// The obligations that the step spares the held point, where the design had these entries.
pub fn spares(
    alloc: Global,
    case: &Inquiry<'_>,
    entries: &[Entry],
) -> Result<Seq<Sequent>, AdviseError>
    requires case { IsCase case.now }
    requires entries { All IsSmallEntry entries.now }
    ensures { Makes result (spares_in (with_entries case.now.d.now entries.now) case.now.question) }
{
    let mut out = Seq::new(alloc);
    match add_case_spares(alloc, &mut out, case, entries) {
        Ok(()) => Ok(out),
        Err(ObligError::Wide(origin)) => Err(AdviseError::Wide(origin)),
        Err(ObligError::Memory) => Err(AdviseError::Memory),
    }
}
