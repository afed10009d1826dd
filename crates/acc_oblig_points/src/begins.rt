//! The obligations that a transaction which begins has its start point's assertion.
ghost use Rattle.std.specs.Prelude.{◌≡◌, ◌+◌, ◌-◌, ◌<◌, ◌^◌, [], ◌++◌, length, slice_get, IfOk, OnOk, All};
ghost use Rattle.acc_base.specs.declared.bounds.TheConstants.{MOST_CLAUSES};
ghost use Rattle.acc_base.specs.Items.{numbers_from};
ghost use Rattle.acc_oblig_places.specs.ManyEntries.{IsFormedButEntries};
ghost use Rattle.acc_oblig.specs.Drafts.{each, each_number};
ghost use Rattle.acc_oblig.specs.PathPromises.{point_clauses};
ghost use Rattle.acc_oblig.specs.PointRules.{begin_at, begin_drafts, begin_origin, begin_rels, zeros};
ghost use Rattle.acc_oblig_goals.specs.Causes.{Adds};
ghost use Rattle.acc_oblig_places.specs.Rooms.{HasFewVars, IsSmallDesign, IsSmallType};
ghost use Rattle.acc_oblig_clauses.specs.Seen.{seen, HasRoom};
ghost use Rattle.acc_oblig_points.specs.OneClause.{begin_clause_drafts};

use crate::resting::resting;
use acc_base::bounds::MOST_CLAUSES;
use acc_base::designs::{At, Design, Side, TxType};
use acc_base::forms::{Clause, Rel};
use acc_base::sequences::Seq;
use acc_base::sequents::{Origin, Rule, Sequent};
use acc_oblig_clauses::{Setting, behind, numbers_from, step_bounds, step_hyps, step_vars};
use acc_oblig_goals::errors::ObligError;
use acc_oblig_goals::sequents::{Shared, add_clause};
use acc_oblig_goals::{is_nothing, own_naming};
use std::alloc::{AllocError, Global};

/// Where the first obligation of a clause of a type's start comes from.
fn begin_origin(clause: u32, ty: u32) -> Origin
    requires { clause + 1 < 2 ^ 32 }
    ensures { result ≡ begin_origin clause ty 1 }
{
    Origin {
        rule: Rule::Begins,
        held: None,
        clause: clause + 1,
        at: Some(At { ty, point: 0 }),
        side: Side::Next,
        path: 0,
        case: 1,
    }
}

/// Adds that so many variables, from one on, are 0.
fn add_zeros(alloc: Global, out: &mut Seq<Rel>, from: u32, n: u32) -> Result<(), AllocError>
    requires { from + n < 2 ^ 32 }
    ensures { OnOk result (out.new ≡ out.old ++ zeros (numbers_from from n)) }
{
    for i in 0..n {
        out.push(is_nothing(alloc, from + i)?)?;
    }
    Ok(())
}

/// The bounds of a transaction that begins, and that its locals behind the parameters are 0.
fn begin_rels(
    alloc: Global,
    ty: &TxType,
    s: &Setting<'_>,
    vars: u32,
) -> Result<Seq<Rel>, AllocError>
    requires small { IsSmallType ty.now }
    requires room { HasRoom s.now }
    ensures { IfOk result (λ rs. rs ≡ begin_rels ty.now (seen s.now) vars) }
{
    let mut rels = step_bounds(alloc, s, 0)?;
    let others = (ty.locals.len() as u32).saturating_sub(ty.params);
    add_zeros(alloc, &mut rels, ty.params, others)?;
    Ok(rels)
}

/// Adds the obligations of a clause of a type's start.
fn add_begin_clause(
    alloc: Global,
    out: &mut Seq<Sequent>,
    d: &Design,
    origin: Origin,
    ty: &TxType,
    c: &Clause,
) -> Result<(), ObligError>
    requires first { origin.case ≡ 1 }
    requires design { IsSmallDesign d.now }
    requires small { IsSmallType ty.now }
    requires few { HasFewVars c.now }
    ensures { Adds result out.old out.new (begin_clause_drafts origin d.now ty.now c.now) }
{
    let s = resting(d, ty, &[]);
    let names = behind(&numbers_from(alloc, 0, s.locals)?, s.locals)?;
    let own = step_vars(&s);
    let vars = own + c.vars.len() as u32;
    let n = own_naming(&names, own, c.vars.len() as u32)?;
    let shared = Shared {
        origin,
        vars,
        hyps: step_hyps(alloc, &s, vars)?,
        rels: begin_rels(alloc, ty, &s, vars)?,
    };
    add_clause(alloc, out, shared, &[], &n, c)
}

/// The clauses of a type's start.
fn start_clauses(ty: &TxType) -> &[Clause]
    ensures { result.now ≡ point_clauses (slice_get ty.now.points 0) }
{
    match ty.points.as_slice().get(0) {
        Some(p) => p.clauses.as_slice(),
        None => &[],
    }
}

/// Adds the obligations of the clause with number k of a type's start, if there is one.
fn add_type_begin(
    alloc: Global,
    out: &mut Seq<Sequent>,
    d: &Design,
    k: u32,
    number: u32,
    ty: &TxType,
) -> Result<(), ObligError>
    requires clause { k + 1 < 2 ^ 32 }
    requires design { IsSmallDesign d.now }
    requires small { IsSmallType ty.now }
    ensures { Adds result out.old out.new (begin_at d.now k number ty.now) }
{
    match start_clauses(ty).get(k as usize) {
        Some(c) => add_begin_clause(alloc, out, d, begin_origin(k, number), ty, c),
        None => Ok(()),
    }
}

/// Adds the obligations of the clauses with number k, type by type.
fn add_number_begins(
    alloc: Global,
    out: &mut Seq<Sequent>,
    d: &Design,
    k: u32,
) -> Result<(), ObligError>
    requires clause { k + 1 < 2 ^ 32 }
    requires design { IsSmallDesign d.now }
    ensures { Adds result out.old out.new (each (begin_at d.now k) d.now.types) }
{
    let types = d.types.as_slice();
    for (i, ty) in types.iter().enumerate() {
        add_type_begin(alloc, out, d, k, i as u32, ty)?;
    }
    Ok(())
}

/// Adds the obligations of the first so many clauses, number by number.
fn add_first_begins(
    alloc: Global,
    out: &mut Seq<Sequent>,
    d: &Design,
    count: u32,
) -> Result<(), ObligError>
    requires { IsSmallDesign d.now }
    ensures { Adds result out.old out.new (each_number 0 count (λ k. each (begin_at d.now k) d.now.types)) }
{
    for k in 0..count {
        add_number_begins(alloc, out, d, k)?;
    }
    Ok(())
}

/// Adds the obligations that a transaction which begins has its start point's assertion, by the clause's number and then type by
/// type.
pub fn add_begins(alloc: Global, out: &mut Seq<Sequent>, d: &Design) -> Result<(), ObligError>
    requires { IsFormedButEntries d.now }
    ensures { Adds result out.old out.new (begin_drafts d.now) }
{
    add_first_begins(alloc, out, d, MOST_CLAUSES as u32)
}
