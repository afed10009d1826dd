//! What is assumed where a path is taken, and what its actions are.
ghost use Rattle.std.specs.Prelude.{◌≡◌, ◌+◌, ◌^◌, ◌<◌, [], ◌∷◌, ◌++◌, length, map, slice_set, All, IfOk, OnOk};
ghost use Rattle.acc_base.specs.declared.bounds.TheConstants.{MOST_VARIABLES};
ghost use Rattle.acc_base.specs.Items.{numbers_from};
ghost use Rattle.acc_oblig.specs.Naming.{own_clauses, named_action};
ghost use Rattle.acc_oblig.specs.Settings.{with_self, first_now, last_now, step_vars, after_naming, all_read_rels, all_read_hyps};
ghost use Rattle.acc_oblig.specs.Settings.{all_bounds, all_untaken, frame_bounds, step_bounds, step_rels, step_hyps, path_actions};
ghost use Rattle.acc_oblig.specs.Drafts.{path_rels};
ghost use Rattle.acc_oblig_places.specs.Rooms.{HasFewVars};
ghost use Rattle.acc_oblig_assumptions.specs.Seen.{seen, HasRoom};

use crate::extremes::add_read_hyps;
use crate::guards::{add_guard_rels, untaken};
use crate::reads::add_read_rels;
use acc_base::forms::{Clause, LinRel, Rel};
use acc_base::sequences::{Seq, copied};
use acc_base::steps::{Action, Path, Read};
use acc_oblig::naming::Naming;
use acc_oblig_named::forms::{add_number_bounds, add_value_bounds};
use acc_oblig_named::naming::{add_numbers_from, named_action, own_clause};
use std::alloc::{AllocError, Global};

/// A step of a transaction with so many locals: what holds always and at its point, its reads, the paths before the taken one, and
/// that one's guard and actions.
#[derive(Drop)]
pub struct Setting<'a> {
    pub always: &'a [Clause],
    pub clauses: &'a [Clause],
    pub locals: u32,
    pub reads: &'a [Read],
    pub earlier: &'a [Path],
    pub guard: &'a [LinRel],
    pub actions: &'a [Action],
}

/// So many variables, from one on.
pub fn numbers_from(alloc: Global, from: u32, n: u32) -> Result<Seq<u32>, AllocError>
    requires { from + n < 2 ^ 32 }
    ensures { IfOk result (λ xs. xs ≡ numbers_from from n) }
{
    let mut names = Seq::new(alloc);
    add_numbers_from(&mut names, from, n)?;
    Ok(names)
}

/// The variables of the locals, where one of them has this variable now.
pub fn with_name(now: Seq<u32>, local: u32, x: u32) -> Seq<u32>
    ensures { result ≡ slice_set now local x }
{
    let mut names = now.into_vec();
    if let Some(name) = names.get_mut(local as usize) {
        *name = x;
    }
    Seq::from_vec(names)
}

/// The variables of the locals, and behind them that of `self`.
pub fn behind(now: &Seq<u32>, me: u32) -> Result<Seq<u32>, AllocError>
    ensures { IfOk result (λ xs. xs ≡ now.now ++ me ∷ []) }
{
    let mut names = copied(now)?;
    names.push(me)?;
    Ok(names)
}

/// The names of a step's variables, in an obligation of so many.
pub fn with_self(now: &Seq<u32>, me: u32, vars: u32) -> Result<Naming, AllocError>
    requires { vars + 1 < 2 ^ 32 }
    ensures { IfOk result (λ n. n ≡ with_self now.now me (vars + 1)) }
{
    Ok(Naming {
        names: behind(now, me)?,
        past: vars + 1,
    })
}

/// The variables of the locals after a step's reads: each has that of its last read.
pub fn last_names(alloc: Global, s: &Setting<'_>) -> Result<Seq<u32>, AllocError>
    requires { HasRoom s.now }
    ensures { IfOk result (λ now. now ≡ last_now (seen s.now)) }
{
    let mut now = numbers_from(alloc, 0, s.locals)?;
    let mut x = s.locals + 1;
    for r in s.reads {
        now = with_name(now, r.assigned(), x);
        x += 1;
    }
    Ok(now)
}

/// How many variables a step has: its locals, `self`, and one a read.
pub fn step_vars(s: &Setting<'_>) -> u32
    requires { HasRoom s.now }
    ensures { result ≡ step_vars (seen s.now) }
{
    s.locals + 1 + s.reads.len() as u32
}

/// The names of a step's variables after its reads, in an obligation of so many.
pub fn after_naming(alloc: Global, s: &Setting<'_>, vars: u32) -> Result<Naming, AllocError>
    requires room { HasRoom s.now }
    requires few { vars + 1 < 2 ^ 32 }
    ensures { IfOk result (λ n. n ≡ after_naming (seen s.now) vars) }
{
    with_self(&last_names(alloc, s)?, s.locals, vars)
}

/// Adds what a step's reads make true of their variables.
fn add_all_read_rels(
    alloc: Global,
    out: &mut Seq<Rel>,
    s: &Setting<'_>,
    vars: u32,
) -> Result<(), AllocError>
    requires room { HasRoom s.now }
    requires few { vars + 1 < 2 ^ 32 }
    ensures { OnOk result
        (out.new ≡ out.old ++ all_read_rels s.now.locals vars (first_now (seen s.now)) (s.now.locals + 1) s.now.reads.now) }
{
    let mut now = numbers_from(alloc, 0, s.locals)?;
    let mut x = s.locals + 1;
    for r in s.reads {
        let n = with_self(&now, s.locals, vars)?;
        add_read_rels(alloc, out, &n, x, r)?;
        now = with_name(now, r.assigned(), x);
        x += 1;
    }
    Ok(())
}

/// Adds what a step's reads make true for all numbers.
fn add_all_read_hyps(
    alloc: Global,
    out: &mut Seq<Clause>,
    s: &Setting<'_>,
    vars: u32,
) -> Result<(), AllocError>
    requires room { HasRoom s.now }
    requires few { vars + 1 < 2 ^ 32 }
    ensures { OnOk result
        (out.new ≡ out.old ++ all_read_hyps s.now.locals vars (first_now (seen s.now)) (s.now.locals + 1) s.now.reads.now) }
{
    let mut now = numbers_from(alloc, 0, s.locals)?;
    let mut x = s.locals + 1;
    for r in s.reads {
        let n = with_self(&now, s.locals, vars)?;
        add_read_hyps(alloc, out, &n, vars, x, r)?;
        now = with_name(now, r.assigned(), x);
        x += 1;
    }
    Ok(())
}

/// Adds that so many variables, from one on, lie within the range.
fn add_all_bounds(alloc: Global, out: &mut Seq<Rel>, from: u32, n: u32) -> Result<(), AllocError>
    requires { from + n < 2 ^ 32 }
    ensures { OnOk result (out.new ≡ out.old ++ all_bounds (numbers_from from n)) }
{
    for i in 0..n {
        add_value_bounds(alloc, out, from + i)?;
    }
    Ok(())
}

/// Adds that so many locals, from a variable on, and a number lie within the range.
pub fn add_frame_bounds(
    alloc: Global,
    out: &mut Seq<Rel>,
    from: u32,
    n: u32,
    me: u32,
) -> Result<(), AllocError>
    requires { from + n < 2 ^ 32 }
    ensures { OnOk result (out.new ≡ out.old ++ frame_bounds from n me) }
{
    add_all_bounds(alloc, out, from, n)?;
    add_number_bounds(alloc, out, me)
}

/// The bounds of a step's variables, with those of so many of its reads.
pub fn step_bounds(alloc: Global, s: &Setting<'_>, bounded: u32) -> Result<Seq<Rel>, AllocError>
    requires { s.now.locals + 1 + bounded < 2 ^ 32 }
    ensures { IfOk result (λ rs. rs ≡ step_bounds (seen s.now) bounded) }
{
    let mut rels = Seq::new(alloc);
    add_frame_bounds(alloc, &mut rels, 0, s.locals, s.locals)?;
    add_all_bounds(alloc, &mut rels, s.locals + 1, bounded)?;
    Ok(rels)
}

/// Adds what the reads and the guard of a path make true.
pub fn add_step_rels(
    alloc: Global,
    out: &mut Seq<Rel>,
    s: &Setting<'_>,
    vars: u32,
) -> Result<(), AllocError>
    requires room { HasRoom s.now }
    requires few { vars + 1 < 2 ^ 32 }
    ensures { OnOk result (out.new ≡ out.old ++ step_rels (seen s.now) vars) }
{
    add_all_read_rels(alloc, out, s, vars)?;
    let n = after_naming(alloc, s, vars)?;
    add_guard_rels(alloc, out, &n, s.guard)
}

/// The relations of a path's obligation of so many variables.
pub fn path_rels(alloc: Global, s: &Setting<'_>, vars: u32) -> Result<Seq<Rel>, AllocError>
    requires room { HasRoom s.now }
    requires few { vars + 1 < 2 ^ 32 }
    ensures { IfOk result (λ rs. rs ≡ path_rels (seen s.now) vars) }
{
    let mut rels = step_bounds(alloc, s, s.reads.len() as u32)?;
    add_step_rels(alloc, &mut rels, s, vars)?;
    Ok(rels)
}

/// Adds clauses whose own variables are those from `own` on.
pub fn add_own_clauses(
    alloc: Global,
    out: &mut Seq<Clause>,
    names: &Seq<u32>,
    own: u32,
    cs: &[Clause],
) -> Result<(), AllocError>
    requires small { All HasFewVars cs.now }
    requires few { own + MOST_VARIABLES < 2 ^ 32 }
    ensures { OnOk result (out.new ≡ out.old ++ own_clauses names.now own cs.now) }
{
    for c in cs {
        out.push(own_clause(alloc, names, own, c)?)?;
    }
    Ok(())
}

/// Adds that paths weren't taken.
fn add_all_untaken(
    alloc: Global,
    out: &mut Seq<Clause>,
    n: &Naming,
    paths: &[Path],
) -> Result<(), AllocError>
    ensures { OnOk result (out.new ≡ out.old ++ all_untaken n.now paths.now) }
{
    for path in paths {
        out.push(untaken(alloc, n, path.guard.as_slice())?)?;
    }
    Ok(())
}

/// Adds what holds always and at the point of a step.
fn add_point_hyps(
    alloc: Global,
    out: &mut Seq<Clause>,
    s: &Setting<'_>,
    vars: u32,
) -> Result<(), AllocError>
    requires room { HasRoom s.now }
    requires few { vars + MOST_VARIABLES < 2 ^ 32 }
    ensures { OnOk result (out.new ≡ out.old ++ (own_clauses [] vars s.now.always.now
        ++ own_clauses (first_now (seen s.now) ++ s.now.locals ∷ []) vars s.now.clauses.now)) }
{
    add_own_clauses(alloc, out, &Seq::new(alloc), vars, s.always)?;
    let names = behind(&numbers_from(alloc, 0, s.locals)?, s.locals)?;
    add_own_clauses(alloc, out, &names, vars, s.clauses)
}

/// What holds always and at the point, what the reads make true for all numbers, and that no earlier path was taken.
pub fn step_hyps(alloc: Global, s: &Setting<'_>, vars: u32) -> Result<Seq<Clause>, AllocError>
    requires room { HasRoom s.now }
    requires few { vars + MOST_VARIABLES < 2 ^ 32 }
    ensures { IfOk result (λ cs. cs ≡ step_hyps (seen s.now) vars) }
{
    let mut hyps = Seq::new(alloc);
    add_point_hyps(alloc, &mut hyps, s, vars)?;
    add_all_read_hyps(alloc, &mut hyps, s, vars)?;
    let n = after_naming(alloc, s, vars)?;
    add_all_untaken(alloc, &mut hyps, &n, s.earlier)?;
    Ok(hyps)
}

/// Adds actions under their names.
fn add_actions(
    alloc: Global,
    out: &mut Vec<Action>,
    n: &Naming,
    actions: &[Action],
) -> Result<(), AllocError>
    ensures { OnOk result (out.new.items ≡ out.old.items ++ map (named_action n.now) actions.now) }
{
    for a in actions {
        out.push(named_action(alloc, n, a)?)?;
    }
    Ok(())
}

/// The actions of a path, by the variables of an obligation of so many.
pub fn path_actions(alloc: Global, s: &Setting<'_>, vars: u32) -> Result<Vec<Action>, AllocError>
    requires room { HasRoom s.now }
    requires few { vars + 1 < 2 ^ 32 }
    ensures { IfOk result (λ v. v.items ≡ path_actions (seen s.now) vars) }
{
    let n = after_naming(alloc, s, vars)?;
    let mut actions = Vec::new(alloc);
    add_actions(alloc, &mut actions, &n, s.actions)?;
    Ok(actions)
}
