//! The obligations that the variant lies from 0 to 65,536, and that an undo path to a point makes it fall.
ghost use Rattle.std.specs.Prelude.{◌≡◌, ◌+◌, ◌<◌, ◌^◌, [], ◌∷◌, map, All, IfOk, slice_get, option_copied, MatchOption, ⊤, pos, negsuc};
ghost use Rattle.std.specs.Prelude.{◌+ℤ◌, ◌*ℤ◌};
ghost use Rattle.acc_base.specs.Sums.{form_sum, is_sum_wide, TellsWide};
ghost use Rattle.acc_oblig_places.specs.ManyEntries.{IsFormedButEntries};
ghost use Rattle.acc_oblig.specs.Naming.{named_lin};
ghost use Rattle.acc_oblig.specs.Settings.{step_naming};
ghost use Rattle.acc_oblig.specs.Relations.{lin_form, plus_number};
ghost use Rattle.acc_oblig.specs.Drafts.{setting_of, goal_drafts};
ghost use Rattle.acc_oblig.specs.PointRules.{rest_origin, fall_in, fall_drafts, fall_at, point_at, variant_drafts};
ghost use Rattle.acc_oblig_goals.specs.Causes.{Adds, TellsClause, at_case};
ghost use Rattle.acc_oblig_places.specs.Rooms.{IsSmallDesign, IsSmallPointPlace, IsSmallPathPlace};
ghost use Rattle.acc_oblig_clauses.specs.Seen.{seen, HasRoom};
ghost use Rattle.acc_oblig_places.specs.SeenPlaces.{point_place, path_place};
ghost use Rattle.acc_oblig_places.specs.DesignPlaces.{joined, at_point_place, at_path_place};
ghost use Rattle.acc_oblig_points.specs.Bounds.{bound_clause, bound_goal, bound_drafts, fall_form, is_fall_wide, target_falls, both_bounds};

use crate::resting::resting;
use acc_base::bounds::LARGEST_VARIANT;
use acc_base::designs::{At, Design, Point, Side, TxType};
use acc_base::forms::{Form, Lin};
use acc_base::sequences::Seq;
use acc_base::sequents::{Origin, Rule, Sequent};
use acc_base::steps::Target;
use acc_base::sums::FormSum;
use acc_oblig_clauses::paths::{Cause, path_origin, path_setting};
use acc_oblig_clauses::{
    Setting, last_names, numbers_from, path_rels, step_hyps, step_vars, with_self,
};
use acc_oblig_goals::errors::ObligError;
use acc_oblig_goals::sequents::Shared;
use acc_oblig_goals::small_goals::add_goal;
use acc_oblig_goals::{lin_form, named_lin, negated_form};
use acc_oblig_places::places::{PathPlace, PointPlace, all_paths, points_of};
use std::alloc::{AllocError, Global};

/// A bound of the variant at a point.
#[derive(Clone, Copy)]
enum Bound {
    /// It is at least 0.
    Lowest,
    /// It is at most 65,536.
    Highest,
}

impl Bound {
    /// Its clause in the place of an obligation.
    fn clause(self) -> u32
        ensures { result ≡ bound_clause self }
    {
        match self {
            Bound::Lowest => 1,
            Bound::Highest => 2,
        }
    }
}

/// That a variant keeps a bound.
fn bound_goal(alloc: Global, bound: Bound, variant: &Lin) -> Result<Form, AllocError>
    ensures { IfOk result (λ f. f ≡ bound_goal bound (lin_form variant.now)) }
{
    match bound {
        Bound::Lowest => negated_form(alloc, variant),
        Bound::Highest => {
            let less = -(LARGEST_VARIANT as i128);
            let mut form = lin_form(alloc, variant)?;
            form.constant = variant.constant as i128 + less;
            Ok(form)
        }
    }
}

/// A variant, where the locals have these variables.
fn named_variant(
    alloc: Global,
    s: &Setting<'_>,
    now: &Seq<u32>,
    vars: u32,
    variant: &Lin,
) -> Result<Lin, AllocError>
    requires { vars + 1 < 2 ^ 32 }
    ensures { IfOk result (λ l. l ≡ named_lin (step_naming (seen s.now) now.now vars) variant.now) }
{
    let n = with_self(now, s.locals, vars)?;
    named_lin(alloc, &n, variant)
}

/// Where the first obligation on the variant of a point comes from.
fn rest_origin(clause: u32, at: At) -> Origin
    ensures { result ≡ rest_origin clause at.ty at.point 1 }
{
    Origin {
        rule: Rule::Variants,
        held: None,
        clause,
        at: Some(at),
        side: Side::Next,
        path: 0,
        case: 1,
    }
}

/// Adds the obligation that the variant of a point keeps a bound.
fn add_point_bound(
    alloc: Global,
    out: &mut Seq<Sequent>,
    d: &Design,
    q: &PointPlace<'_>,
    bound: Bound,
) -> Result<(), ObligError>
    requires design { IsSmallDesign d.now }
    requires small { IsSmallPointPlace (point_place q.now) }
    ensures { Adds result out.old out.new (at_point_place (bound_drafts d.now bound) (point_place q.now)) }
{
    let s = resting(d, q.ty, q.point.clauses.as_slice());
    let vars = step_vars(&s);
    let now = numbers_from(alloc, 0, s.locals)?;
    let variant = named_variant(alloc, &s, &now, vars, &q.point.variant)?;
    let goal = bound_goal(alloc, bound, &variant)?;
    let shared = Shared {
        origin: rest_origin(bound.clause(), q.at),
        vars,
        hyps: step_hyps(alloc, &s, vars)?,
        rels: path_rels(alloc, &s, vars)?,
    };
    add_goal(alloc, out, &shared, goal)
}

/// Adds the obligations that the variants of points keep a bound.
fn add_bounds(
    alloc: Global,
    out: &mut Seq<Sequent>,
    d: &Design,
    points: &[PointPlace<'_>],
    bound: Bound,
) -> Result<(), ObligError>
    requires design { IsSmallDesign d.now }
    requires small { All (λ q. IsSmallPointPlace (point_place q)) points.now }
    ensures { Adds result out.old out.new (joined (at_point_place (bound_drafts d.now bound)) (map point_place points.now)) }
{
    for q in points {
        add_point_bound(alloc, out, d, q, bound)?;
    }
    Ok(())
}

/// A linear value minus another.
fn difference(alloc: Global, last: &Lin, first: &Lin) -> Result<Form, FormSum>
    ensures value { IfOk result (λ f. f ≡ form_sum (lin_form last.now) (negsuc 0) (lin_form first.now)) }
    ensures wide { TellsWide result (is_sum_wide (lin_form last.now) (negsuc 0) (lin_form first.now)) }
{
    let first = lin_form(alloc, first)?;
    let last = lin_form(alloc, last)?;
    last.plus(alloc, &first, -1)
}

/// A form with another constant.
fn with_constant(f: Form, constant: i128) -> Form
    ensures { result ≡ record f { constant = constant } }
{
    Form {
        terms: f.terms,
        constant,
    }
}

/// The constant of a linear value minus that of another, and 1.
fn less_by_one(last: &Lin, first: &Lin) -> i128
    ensures { result ≡ (last.now.constant +ℤ negsuc 0 *ℤ first.now.constant) +ℤ pos 1 }
{
    last.constant as i128 - first.constant as i128 + 1
}

/// That a linear value is less than another, for the obligation that comes from this place.
fn fall_goal(alloc: Global, origin: &Origin, last: &Lin, first: &Lin) -> Result<Form, ObligError>
    ensures goal { IfOk result (λ f. f ≡ plus_number (form_sum (lin_form last.now) (negsuc 0) (lin_form first.now)) (pos 1)) }
    ensures wide { TellsClause result origin.now (is_sum_wide (lin_form last.now) (negsuc 0) (lin_form first.now)) }
{
    match difference(alloc, last, first) {
        Ok(difference) => Ok(with_constant(difference, less_by_one(last, first))),
        Err(FormSum::Wide) => Err(ObligError::Wide(*origin)),
        Err(FormSum::Memory) => Err(ObligError::Memory),
    }
}

/// The goal that the variant of a point is less, after the reads of a step, than that of the step's point.
fn path_fall(
    alloc: Global,
    origin: &Origin,
    s: &Setting<'_>,
    before: &Lin,
    behind: &Lin,
) -> Result<Form, ObligError>
    requires room { HasRoom s.now }
    ensures goal { IfOk result (λ f. f ≡ fall_form (seen s.now) before.now behind.now) }
    ensures wide { TellsClause result origin.now (is_fall_wide (seen s.now) before.now behind.now) }
{
    let vars = step_vars(s);
    let first = named_variant(alloc, s, &numbers_from(alloc, 0, s.locals)?, vars, before)?;
    let last = named_variant(alloc, s, &last_names(alloc, s)?, vars, behind)?;
    fall_goal(alloc, origin, &last, &first)
}

/// Adds the obligation that the variant of a point is less than that of the path's point.
fn add_fall(
    alloc: Global,
    out: &mut Seq<Sequent>,
    d: &Design,
    q: &PathPlace<'_>,
    target: &Point,
) -> Result<(), ObligError>
    requires design { IsSmallDesign d.now }
    requires small { IsSmallPathPlace (path_place q.now) }
    ensures { Adds result out.old out.new
        (fall_drafts (setting_of d.now q.now.ty.now q.now.point.now q.now.step.now q.now.number q.now.path.now) (path_place q.now).w
        q.now.point.now target.now) }
{
    let cause = Cause {
        rule: Rule::Variants,
        held: None,
        clause: 2,
    };
    let s = path_setting(d, q);
    let origin = path_origin(cause, q);
    let goal = path_fall(alloc, &origin, &s, &q.point.variant, &target.variant)?;
    let vars = step_vars(&s);
    let shared = Shared {
        origin,
        vars,
        hyps: step_hyps(alloc, &s, vars)?,
        rels: path_rels(alloc, &s, vars)?,
    };
    add_goal(alloc, out, &shared, goal)
}

/// The point that a target names.
fn point_at(ty: &TxType, target: Target) -> Option<&Point>
    ensures { option_copied result ≡ point_at ty.now target }
{
    match target {
        Target::Point(p) => ty.points.as_slice().get(p as usize),
        Target::Commit | Target::Undone | Target::Refuse(_) => None,
    }
}

/// Adds the obligation that a path makes the variant fall, if it leads to a point.
fn add_target_fall(
    alloc: Global,
    out: &mut Seq<Sequent>,
    d: &Design,
    q: &PathPlace<'_>,
) -> Result<(), ObligError>
    requires design { IsSmallDesign d.now }
    requires small { IsSmallPathPlace (path_place q.now) }
    ensures { Adds result out.old out.new (target_falls d.now (path_place q.now)) }
{
    match point_at(q.ty, q.path.target) {
        Some(target) => add_fall(alloc, out, d, q, target),
        None => Ok(()),
    }
}

/// Adds the obligation that a path makes the variant fall, if it is an undo path to a point.
fn add_path_fall(
    alloc: Global,
    out: &mut Seq<Sequent>,
    d: &Design,
    q: &PathPlace<'_>,
) -> Result<(), ObligError>
    requires design { IsSmallDesign d.now }
    requires small { IsSmallPathPlace (path_place q.now) }
    ensures { Adds result out.old out.new (at_path_place (fall_at d.now) (path_place q.now)) }
{
    match q.side {
        Side::Next => Ok(()),
        Side::Undo => add_target_fall(alloc, out, d, q),
    }
}

/// Adds the obligations that undo paths to points make the variant fall.
fn add_falls(
    alloc: Global,
    out: &mut Seq<Sequent>,
    d: &Design,
    paths: &[PathPlace<'_>],
) -> Result<(), ObligError>
    requires design { IsSmallDesign d.now }
    requires small { All (λ q. IsSmallPathPlace (path_place q)) paths.now }
    ensures { Adds result out.old out.new (joined (at_path_place (fall_at d.now)) (map path_place paths.now)) }
{
    for q in paths {
        add_path_fall(alloc, out, d, q)?;
    }
    Ok(())
}

/// Adds the obligations that the variants of points are at least 0, and then that they are at most 65,536.
fn add_both_bounds(
    alloc: Global,
    out: &mut Seq<Sequent>,
    d: &Design,
    points: &[PointPlace<'_>],
) -> Result<(), ObligError>
    requires design { IsSmallDesign d.now }
    requires small { All (λ q. IsSmallPointPlace (point_place q)) points.now }
    ensures { Adds result out.old out.new (both_bounds d.now (map point_place points.now)) }
{
    add_bounds(alloc, out, d, points, Bound::Lowest)?;
    add_bounds(alloc, out, d, points, Bound::Highest)
}

/// Adds the obligations that the variant is at least 0, point by point, that it is at most 65,536, and that an undo path to a point
/// makes it fall, path by path.
pub fn add_variants(alloc: Global, out: &mut Seq<Sequent>, d: &Design) -> Result<(), ObligError>
    requires { IsFormedButEntries d.now }
    ensures { Adds result out.old out.new (variant_drafts d.now) }
{
    let points = points_of(alloc, d)?;
    add_both_bounds(alloc, out, d, points.as_slice())?;
    let paths = all_paths(alloc, d)?;
    let all = paths.as_slice();
    add_falls(alloc, out, d, all)
}
