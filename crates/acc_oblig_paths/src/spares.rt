//! The obligations that a path keeps what holds at the points of others.
ghost use Rattle.std.specs.Prelude.{◌≡◌, ◌+◌, ◌++◌, ◌≤◌, ◌<◌, ◌^◌, length, map, All, IfOk};
ghost use Rattle.acc_base.specs.declared.bounds.TheConstants.{MOST_LOCALS, MOST_VARIABLES};
ghost use Rattle.acc_oblig_places.specs.ManyEntries.{IsFormedButEntries, with_entries};
ghost use Rattle.acc_oblig.specs.Naming.{own_clauses};
ghost use Rattle.acc_oblig.specs.Settings.{step_vars, step_hyps, step_rels, step_bounds, frame_bounds};
ghost use Rattle.acc_oblig.specs.Spares.{held_names, spare_drafts, spare_at, held_drafts, all_spare_drafts};
ghost use Rattle.acc_oblig_goals.specs.Causes.{Adds, at_case};
ghost use Rattle.acc_oblig_places.specs.Rooms.{HasFewVars, IsSmallDesign, IsSmallEntry, IsSmallPathPlace, IsSmallPointPlace};
ghost use Rattle.acc_oblig_clauses.specs.Seen.{seen, HasRoom};
ghost use Rattle.acc_oblig_places.specs.SeenPlaces.{point_place, path_place};
ghost use Rattle.acc_oblig_places.specs.DesignPlaces.{joined, at_path_place, at_point_place, path_places};
ghost use Rattle.acc_oblig_paths.specs.Helds.{ordered_of};

use crate::entries::open_by;
use crate::orders::{Ordered, add_clause};
use crate::tables::clause_names;
use acc_base::designs::{Design, Entry};
use acc_base::forms::{Clause, Rel};
use acc_base::sequences::Seq;
use acc_base::sequents::{Origin, Rule, Sequent};
use acc_oblig_clauses::paths::{Cause, path_origin, path_setting};
use acc_oblig_clauses::{
    Setting, add_frame_bounds, add_own_clauses, add_step_rels, numbers_from, path_actions,
    step_bounds, step_hyps, step_vars,
};
use acc_oblig_goals::errors::ObligError;
use acc_oblig_goals::{is_less, own_naming};
use acc_oblig_places::places::{PathPlace, PointPlace, all_paths, points_of};
use std::alloc::{AllocError, Global};

/// The variables of so many held locals and of the held number.
fn held_names(alloc: Global, s: &Setting<'_>, held: u32) -> Result<Seq<u32>, AllocError>
    requires room { HasRoom s.now }
    requires few { held ≤ MOST_LOCALS }
    ensures { IfOk result (λ xs. xs ≡ held_names (seen s.now) held) }
{
    numbers_from(alloc, step_vars(s), held + 1)
}

/// The hypotheses of a step, and what holds at the held point.
fn held_hyps(
    alloc: Global,
    s: &Setting<'_>,
    held: &PointPlace<'_>,
    vars: u32,
) -> Result<Seq<Clause>, AllocError>
    requires room { HasRoom s.now }
    requires small { IsSmallPointPlace (point_place held.now) }
    requires few { vars + MOST_VARIABLES < 2 ^ 32 }
    ensures { IfOk result (λ cs. cs ≡ step_hyps (seen s.now) vars
        ++ own_clauses (held_names (seen s.now) (length held.now.ty.now.locals)) vars held.now.point.now.clauses) }
{
    let mut hyps = step_hyps(alloc, s, vars)?;
    let names = held_names(alloc, s, held.ty.locals.len() as u32)?;
    add_own_clauses(
        alloc,
        &mut hyps,
        &names,
        vars,
        held.point.clauses.as_slice(),
    )?;
    Ok(hyps)
}

/// The bounds and relations of a step, with the bounds of so many held locals and of the held number.
fn held_rels(alloc: Global, s: &Setting<'_>, held: u32, vars: u32) -> Result<Seq<Rel>, AllocError>
    requires room { HasRoom s.now }
    requires small { held ≤ MOST_LOCALS }
    requires few { vars + 1 < 2 ^ 32 }
    ensures { IfOk result (λ rs. rs ≡ step_bounds (seen s.now) (length s.now.reads.now)
        ++ frame_bounds (step_vars (seen s.now)) held (step_vars (seen s.now) + held) ++ step_rels (seen s.now) vars) }
{
    let own = step_vars(s);
    let mut rels = step_bounds(alloc, s, s.reads.len() as u32)?;
    add_frame_bounds(alloc, &mut rels, own, held, own + held)?;
    add_step_rels(alloc, &mut rels, s, vars)?;
    Ok(rels)
}

/// What the obligations of a held clause have in common, of so many variables, where pairs of an entry are as these relations say.
fn ordered_of(
    alloc: Global,
    origin: Origin,
    s: &Setting<'_>,
    held: &PointPlace<'_>,
    vars: u32,
    pairs: Seq<Rel>,
) -> Result<Ordered, AllocError>
    requires room { HasRoom s.now }
    requires small { IsSmallPointPlace (point_place held.now) }
    requires few { vars + MOST_VARIABLES < 2 ^ 32 }
    ensures { IfOk result (λ o. o ≡ ordered_of origin (seen s.now) (point_place held.now) vars pairs) }
{
    let locals = held.ty.locals.len() as u32;
    let me = step_vars(s) + locals;
    Ok(Ordered {
        origin,
        vars,
        hyps: held_hyps(alloc, s, held, vars)?,
        first: held_rels(alloc, s, locals, vars)?,
        lower: is_less(alloc, me, s.locals)?,
        higher: is_less(alloc, s.locals, me)?,
        rest: pairs,
    })
}

/// Adds the obligations that a path keeps a clause of a held point, where pairs of an entry are as these relations say.
fn add_spare(
    alloc: Global,
    out: &mut Seq<Sequent>,
    origin: Origin,
    s: &Setting<'_>,
    held: &PointPlace<'_>,
    pairs: Seq<Rel>,
    c: &Clause,
) -> Result<(), ObligError>
    requires first { origin.case ≡ 1 }
    requires room { HasRoom s.now }
    requires small { IsSmallPointPlace (point_place held.now) }
    requires few { HasFewVars c.now }
    ensures { Adds result out.old out.new (spare_drafts (at_case origin) (seen s.now) held.now.point.now.clauses
        (length held.now.ty.now.locals) pairs c.now) }
{
    let locals = held.ty.locals.len() as u32;
    let names = held_names(alloc, s, locals)?;
    let own = step_vars(s) + (locals + 1);
    let n = own_naming(&names, own, c.vars.len() as u32)?;
    let vars = own + c.vars.len() as u32;
    let actions = path_actions(alloc, s, vars)?;
    let ordered = ordered_of(alloc, origin, s, held, vars, pairs)?;
    add_clause(alloc, out, ordered, actions.as_slice(), &n, c)
}

/// Adds the obligations that a path keeps a clause of a held point, if the clause names a table that the path changes, where the design
/// had these entries in place of its own.
///
/// `Wide` with the origin of the first that has a number that is too large. `Memory` where memory ran out.
pub fn add_spare_among(
    alloc: Global,
    out: &mut Seq<Sequent>,
    d: &Design,
    entries: &[Entry],
    q: &PathPlace<'_>,
    held: &PointPlace<'_>,
    k: u32,
    c: &Clause,
) -> Result<(), ObligError>
    requires design { IsSmallDesign d.now }
    requires entries { All IsSmallEntry entries.now }
    requires small { IsSmallPathPlace (path_place q.now) }
    requires held { IsSmallPointPlace (point_place held.now) }
    requires number { k + 1 < 2 ^ 32 }
    requires few { HasFewVars c.now }
    ensures { Adds result out.old out.new (at_path_place
        (spare_at (with_entries d.now entries.now) held.now.at held.now.ty.now held.now.point.now k c.now) (path_place q.now)) }
{
    if !clause_names(q.path.actions.as_slice(), c) {
        return Ok(());
    }
    let s = path_setting(d, q);
    match open_by(alloc, entries, held.at, q, &s)? {
        None => Ok(()),
        Some(pairs) => {
            let cause = Cause {
                rule: Rule::Spares,
                held: Some(held.at),
                clause: k,
            };
            add_spare(alloc, out, path_origin(cause, q), &s, held, pairs, c)
        }
    }
}

/// Adds the obligations that a path keeps a clause of a held point, if the clause names a table that the path changes.
fn add_path_spare(
    alloc: Global,
    out: &mut Seq<Sequent>,
    d: &Design,
    q: &PathPlace<'_>,
    held: &PointPlace<'_>,
    k: u32,
    c: &Clause,
) -> Result<(), ObligError>
    requires design { IsSmallDesign d.now }
    requires small { IsSmallPathPlace (path_place q.now) }
    requires held { IsSmallPointPlace (point_place held.now) }
    requires number { k + 1 < 2 ^ 32 }
    requires few { HasFewVars c.now }
    ensures { Adds result out.old out.new
        (at_path_place (spare_at d.now held.now.at held.now.ty.now held.now.point.now k c.now) (path_place q.now)) }
{
    add_spare_among(alloc, out, d, d.entries.as_slice(), q, held, k, c)
}

/// Adds the obligations that paths keep a clause of a held point.
fn add_clause_spares(
    alloc: Global,
    out: &mut Seq<Sequent>,
    d: &Design,
    paths: &[PathPlace<'_>],
    held: &PointPlace<'_>,
    k: u32,
    c: &Clause,
) -> Result<(), ObligError>
    requires design { IsSmallDesign d.now }
    requires small { All (λ q. IsSmallPathPlace (path_place q)) paths.now }
    requires held { IsSmallPointPlace (point_place held.now) }
    requires number { k + 1 < 2 ^ 32 }
    requires few { HasFewVars c.now }
    ensures { Adds result out.old out.new
        (joined (at_path_place (spare_at d.now held.now.at held.now.ty.now held.now.point.now k c.now)) (map path_place paths.now)) }
{
    for q in paths {
        add_path_spare(alloc, out, d, q, held, k, c)?;
    }
    Ok(())
}

/// Adds the obligations that the paths of a design keep the clauses of a held point.
fn add_point_spares(
    alloc: Global,
    out: &mut Seq<Sequent>,
    d: &Design,
    paths: &[PathPlace<'_>],
    held: &PointPlace<'_>,
) -> Result<(), ObligError>
    requires design { IsSmallDesign d.now }
    requires small { All (λ q. IsSmallPathPlace (path_place q)) paths.now }
    requires all { map path_place paths.now ≡ path_places d.now }
    requires held { IsSmallPointPlace (point_place held.now) }
    ensures { Adds result out.old out.new (at_point_place (held_drafts d.now) (point_place held.now)) }
{
    let clauses = held.point.clauses.as_slice();
    for (k, c) in clauses.iter().enumerate() {
        add_clause_spares(alloc, out, d, paths, held, k as u32, c)?;
    }
    Ok(())
}

/// Adds the obligations that each path keeps what holds at the points of others, where no entry forbids its step: by held point
/// and clause, and then path by path.
pub fn add_spares(alloc: Global, out: &mut Seq<Sequent>, d: &Design) -> Result<(), ObligError>
    requires { IsFormedButEntries d.now }
    ensures { Adds result out.old out.new (all_spare_drafts d.now) }
{
    let listed = points_of(alloc, d)?;
    let points = listed.as_slice();
    let paths = all_paths(alloc, d)?;
    for held in points {
        add_point_spares(alloc, out, d, paths.as_slice(), held)?;
    }
    Ok(())
}
