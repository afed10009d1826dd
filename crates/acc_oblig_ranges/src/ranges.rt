//! The obligations that the numbers of undo steps stay within the range.
ghost use Rattle.std.specs.Prelude.{◌≡◌, ◌+◌, ◌≤◌, ◌<◌, ◌^◌, map, All, IfOk, pos, neg_ℤ};
ghost use Rattle.acc_base.specs.declared.bounds.TheConstants.{MOST_READS};
ghost use Rattle.acc_oblig_places.specs.ManyEntries.{IsFormedButEntries};
ghost use Rattle.acc_oblig.specs.Relations.{lin_form, negated, plus_number};
ghost use Rattle.acc_oblig.specs.Settings.{step_vars};
ghost use Rattle.acc_oblig.specs.Drafts.{each_number};
ghost use Rattle.acc_oblig.specs.PointRules.{each_point};
ghost use Rattle.acc_oblig.specs.Ranges.{within, read_origin, reads_setting, read_range_in, range_at, range_drafts};
ghost use Rattle.acc_oblig_clauses.specs.Causes.{Adds};
ghost use Rattle.acc_oblig_places.specs.Rooms.{IsSmallDesign, IsSmallPointPlace, IsSmallPathPlace};
ghost use Rattle.acc_oblig_clauses.specs.Seen.{seen, HasRoom};
ghost use Rattle.acc_oblig_places.specs.SeenPlaces.{point_place, path_place};
ghost use Rattle.acc_oblig_places.specs.DesignPlaces.{joined, at_point_place, at_path_place};
ghost use Rattle.acc_oblig_ranges.specs.Numbers.{seen_read, seen_action};
ghost use Rattle.acc_oblig_ranges.specs.PathRanges.{action_range, path_range, undo_ranges};

use crate::action_numbers::{ActionNumber, action_number};
use crate::found::Found;
use crate::read_numbers::{ReadNumber, among_reads};
use acc_base::bounds::{LARGEST_NUMBER, MOST_ACTIONS, MOST_COLUMNS, MOST_KEY_PARTS, MOST_READS};
use acc_base::designs::{At, Design, Side};
use acc_base::forms::{Form, Lin};
use acc_base::sequences::Seq;
use acc_base::sequents::{Origin, Rule, Sequent};
use acc_oblig_clauses::paths::{Cause, path_origin, path_setting};
use acc_oblig_clauses::{
    ObligError, Setting, Shared, add_small_goals, add_step_rels, after_naming, lin_form, named_lin,
    negated_form, path_rels, step_bounds, step_hyps, step_vars,
};
use acc_oblig_places::places::{PathPlace, PointPlace, points_of};
use std::alloc::{AllocError, Global};

/// The numbers of a step: of each read its key's and its value, and of each action its key's and its operands.
const MOST_NUMBERS: usize = MOST_READS * (MOST_KEY_PARTS + 1)
    + MOST_ACTIONS * (MOST_KEY_PARTS + MOST_COLUMNS);

/// That a value is at most so much.
fn at_most(alloc: Global, value: &Lin, most: u64) -> Result<Form, AllocError>
    ensures { IfOk result (λ f. f ≡ plus_number (lin_form value.now) (neg_ℤ (pos most))) }
{
    let less = -(most as i128);
    let mut form = lin_form(alloc, value)?;
    form.constant = value.constant as i128 + less;
    Ok(form)
}

/// That a value is at least minus so much.
fn at_least(alloc: Global, value: &Lin, most: u64) -> Result<Form, AllocError>
    ensures { IfOk result (λ f. f ≡ plus_number (negated (lin_form value.now)) (neg_ℤ (pos most))) }
{
    let less = -(most as i128);
    let mut form = negated_form(alloc, value)?;
    form.constant = -(value.constant as i128) + less;
    Ok(form)
}

/// That a value is at most so much, and at least minus that.
fn within(alloc: Global, value: &Lin, most: u64) -> Result<Seq<Form>, AllocError>
    ensures { IfOk result (λ fs. fs ≡ within (lin_form value.now) most) }
{
    let mut goals = Seq::new(alloc);
    goals.push(at_most(alloc, value, most)?)?;
    goals.push(at_least(alloc, value, most)?)?;
    Ok(goals)
}

/// Where the first obligation on the number with place k of a step's reads comes from.
fn read_origin(k: u32, at: At) -> Origin
    requires { k + 1 < 2 ^ 32 }
    ensures { result ≡ read_origin k at 1 }
{
    Origin {
        rule: Rule::Ranges,
        held: None,
        clause: k + 1,
        at: Some(at),
        side: Side::Undo,
        path: 0,
        case: 1,
    }
}

/// The reads of a point's undo step, without a path.
fn reads_setting<'a>(d: &'a Design, q: &PointPlace<'a>) -> Setting<'a>
    requires design { IsSmallDesign d.now }
    requires small { IsSmallPointPlace (point_place q.now) }
    ensures seen { seen result ≡ reads_setting d.now q.now.ty.now q.now.point.now }
    ensures room { HasRoom result }
{
    Setting {
        always: d.always.as_slice(),
        clauses: q.point.clauses.as_slice(),
        locals: q.ty.locals.len() as u32,
        reads: q.point.undo.reads.as_slice(),
        earlier: &[],
        guard: &[],
        actions: &[],
    }
}

/// Adds the obligations on a number of a step's reads, if it has them.
fn add_read_range(
    alloc: Global,
    out: &mut Seq<Sequent>,
    s: &Setting<'_>,
    at: At,
    k: u32,
    m: &ReadNumber,
) -> Result<(), ObligError>
    requires clause { k + 1 < 2 ^ 32 }
    requires few { m.now.bounded ≤ MOST_READS }
    requires room { HasRoom s.now }
    ensures { Adds result out.old out.new (read_range_in k at (seen s.now) (step_vars (seen s.now)) (seen_read m.now)) }
{
    if !m.asked {
        return Ok(());
    }
    let vars = step_vars(s);
    let mut rels = step_bounds(alloc, s, m.bounded)?;
    add_step_rels(alloc, &mut rels, s, vars)?;
    let shared = Shared {
        origin: read_origin(k, at),
        vars,
        hyps: step_hyps(alloc, s, vars)?,
        rels,
    };
    let goals = within(alloc, &m.value, LARGEST_NUMBER)?;
    add_small_goals(out, &shared, goals.as_slice())
}

/// Adds the obligations on a number of a path's actions.
fn add_action_range(
    alloc: Global,
    out: &mut Seq<Sequent>,
    s: &Setting<'_>,
    origin: Origin,
    m: ActionNumber<'_>,
) -> Result<(), ObligError>
    requires room { HasRoom s.now }
    ensures { Adds result out.old out.new (action_range origin (seen s.now) (step_vars (seen s.now)) (seen_action m.entry)) }
{
    let vars = step_vars(s);
    let n = after_naming(alloc, s, vars)?;
    let value = named_lin(alloc, &n, m.value)?;
    let goals = within(alloc, &value, m.most)?;
    let shared = Shared {
        origin,
        vars,
        hyps: step_hyps(alloc, s, vars)?,
        rels: path_rels(alloc, s, vars)?,
    };
    add_small_goals(out, &shared, goals.as_slice())
}

/// Adds the obligations on the number of a path's actions with this place among them, if there is one.
fn add_path_range(
    alloc: Global,
    out: &mut Seq<Sequent>,
    d: &Design,
    q: &PathPlace<'_>,
    k: u32,
    place: usize,
) -> Result<(), ObligError>
    requires clause { k + 1 < 2 ^ 32 }
    requires design { IsSmallDesign d.now }
    requires small { IsSmallPathPlace (path_place q.now) }
    ensures { Adds result out.old out.new (at_path_place (path_range d.now k place) (path_place q.now)) }
{
    match action_number(q.path.actions.as_slice(), place) {
        Some(m) => {
            let cause = Cause {
                rule: Rule::Ranges,
                held: None,
                clause: k,
            };
            add_action_range(alloc, out, &path_setting(d, q), path_origin(cause, q), m)
        }
        None => Ok(()),
    }
}

/// Adds the obligations on the numbers of actions with this place, undo path by undo path of a point.
fn add_path_ranges(
    alloc: Global,
    out: &mut Seq<Sequent>,
    d: &Design,
    q: &PointPlace<'_>,
    k: u32,
    place: usize,
) -> Result<(), ObligError>
    requires clause { k + 1 < 2 ^ 32 }
    requires design { IsSmallDesign d.now }
    requires small { IsSmallPointPlace (point_place q.now) }
    ensures { Adds result out.old out.new (undo_ranges d.now k place (point_place q.now)) }
{
    let step = &q.point.undo;
    let paths = step.paths.as_slice();
    for (j, path) in paths.iter().enumerate() {
        let place_of_path = PathPlace {
            at: q.at,
            side: Side::Undo,
            number: j as u32,
            ty: q.ty,
            point: q.point,
            step,
            path,
        };
        add_path_range(alloc, out, d, &place_of_path, k, place)?;
    }
    Ok(())
}

/// Adds the obligations on the number with place k of a point's undo step: of its reads, or behind those of each path.
fn add_point_range(
    alloc: Global,
    out: &mut Seq<Sequent>,
    d: &Design,
    q: &PointPlace<'_>,
    k: u32,
) -> Result<(), ObligError>
    requires clause { k + 1 < 2 ^ 32 }
    requires design { IsSmallDesign d.now }
    requires small { IsSmallPointPlace (point_place q.now) }
    ensures { Adds result out.old out.new (at_point_place (range_at d.now k) (point_place q.now)) }
{
    let s = reads_setting(d, q);
    match among_reads(alloc, &s, k as usize)? {
        Found::Number(m) => add_read_range(alloc, out, &s, q.at, k, &m),
        Found::Behind(left) => add_path_ranges(alloc, out, d, q, k, left),
    }
}

/// Adds the obligations on the numbers with place k, point by point.
fn add_number_ranges(
    alloc: Global,
    out: &mut Seq<Sequent>,
    d: &Design,
    points: &[PointPlace<'_>],
    k: u32,
) -> Result<(), ObligError>
    requires clause { k + 1 < 2 ^ 32 }
    requires design { IsSmallDesign d.now }
    requires small { All (λ q. IsSmallPointPlace (point_place q)) points.now }
    ensures { Adds result out.old out.new (joined (at_point_place (range_at d.now k)) (map point_place points.now)) }
{
    for q in points {
        add_point_range(alloc, out, d, q, k)?;
    }
    Ok(())
}

/// Adds the obligations on the first so many numbers, place by place.
fn add_first_ranges(
    alloc: Global,
    out: &mut Seq<Sequent>,
    d: &Design,
    count: u32,
) -> Result<(), ObligError>
    requires { IsFormedButEntries d.now }
    ensures { Adds result out.old out.new (each_number 0 count (λ k. each_point d.now (range_at d.now k))) }
{
    let points = points_of(alloc, d)?;
    for k in 0..count {
        add_number_ranges(alloc, out, d, points.as_slice(), k)?;
    }
    Ok(())
}

/// Adds the obligations that the numbers of undo steps stay within the range, by a number's place and then point by point: first
/// those of the reads, and behind them those of each path's actions.
pub fn add_ranges(alloc: Global, out: &mut Seq<Sequent>, d: &Design) -> Result<(), ObligError>
    requires { IsFormedButEntries d.now }
    ensures { Adds result out.old out.new (range_drafts d.now) }
{
    add_first_ranges(alloc, out, d, MOST_NUMBERS as u32)
}
