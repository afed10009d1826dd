//! The obligations of a clause after a path.
ghost use Rattle.std.specs.Prelude.{◌≡◌, ◌+◌, ◌<◌, ◌^◌, take};
ghost use Rattle.acc_oblig_assumptions.specs.Drafts.{path_origin, setting_of};
ghost use Rattle.acc_oblig_goals.specs.Causes.{Adds};
ghost use Rattle.acc_oblig_assumptions.specs.Rooms.{HasFewVars, IsSmallDesign, IsSmallPathPlace};
ghost use Rattle.acc_oblig_clauses.specs.PathClauses.{path_clause_drafts};
ghost use Rattle.acc_oblig_assumptions.specs.Seen.{seen, HasRoom};
ghost use Rattle.acc_oblig_assumptions.specs.SeenPlaces.{path_place};

use acc_base::designs::{At, Design};
use acc_base::forms::Clause;
use acc_base::sequences::Seq;
use acc_base::sequents::{Origin, Rule, Sequent};
use acc_base::steps::Path;
use acc_oblig_assumptions::settings::{Setting, path_actions, path_rels, step_hyps, step_vars};
use acc_oblig_assumptions::{PathPlace, own_naming};
use acc_oblig_goals::errors::ObligError;
use acc_oblig_goals::sequents::{Shared, add_clause};
use std::alloc::Global;

/// The paths before the one with a number.
fn earlier(paths: &[Path], number: u32) -> &[Path]
    ensures { result.now ≡ take number paths.now }
{
    let count = paths.len().min(number as usize);
    &paths[..count]
}

/// The setting of a path.
pub fn path_setting<'a>(d: &'a Design, q: &PathPlace<'a>) -> Setting<'a>
    requires design { IsSmallDesign d.now }
    requires small { IsSmallPathPlace (path_place q.now) }
    ensures seen { seen result ≡ setting_of d.now q.now.ty.now q.now.point.now q.now.step.now q.now.number q.now.path.now }
    ensures room { HasRoom result }
{
    Setting {
        always: d.always.as_slice(),
        clauses: q.point.clauses.as_slice(),
        locals: q.ty.locals.len() as u32,
        reads: q.step.reads.as_slice(),
        earlier: earlier(q.step.paths.as_slice(), q.number),
        guard: q.path.guard.as_slice(),
        actions: q.path.actions.as_slice(),
    }
}

/// Which clause or number of a rule an obligation is on, from 0, and of which held point if there is one.
#[derive(Clone, Copy)]
pub struct Cause {
    pub rule: Rule,
    pub held: Option<At>,
    pub clause: u32,
}

/// Where the obligation with case 1 of a path comes from.
pub fn path_origin(cause: Cause, q: &PathPlace<'_>) -> Origin
    requires clause { cause.clause + 1 < 2 ^ 32 }
    requires small { IsSmallPathPlace (path_place q.now) }
    ensures { result ≡ path_origin cause.rule cause.held cause.clause (path_place q.now).w 1 }
{
    Origin {
        rule: cause.rule,
        held: cause.held,
        clause: cause.clause + 1,
        at: Some(q.at),
        side: q.side,
        path: q.number + 1,
        case: 1,
    }
}

/// Adds the obligations of a clause after a path, where its first variables have these names.
pub fn add_path_clause(
    alloc: Global,
    out: &mut Seq<Sequent>,
    origin: Origin,
    s: &Setting<'_>,
    names: &Seq<u32>,
    c: &Clause,
) -> Result<(), ObligError>
    requires first { origin.case ≡ 1 }
    requires room { HasRoom s.now }
    requires few { HasFewVars c.now }
    ensures { Adds result out.old out.new (path_clause_drafts origin (seen s.now) names.now c.now) }
{
    let own = step_vars(s);
    let n = own_naming(names, own, c.vars.len() as u32)?;
    let vars = own + c.vars.len() as u32;
    let shared = Shared {
        origin,
        vars,
        hyps: step_hyps(alloc, s, vars)?,
        rels: path_rels(alloc, s, vars)?,
    };
    let actions = path_actions(alloc, s, vars)?;
    add_clause(alloc, out, shared, actions.as_slice(), &n, c)
}
