//! The guards of paths, and that a guard isn't true.
ghost use Rattle.std.specs.Prelude.{◌≡◌, ◌++◌, map, IfOk, OnOk, pos};
ghost use Rattle.acc_oblig.specs.Relations.{guard_rel, denied, but_last, last_denied, untaken};

use acc_base::forms::{Clause, Lin, LinRel, Rel};
use acc_base::sequences::Seq;
use acc_oblig::naming::Naming;
use acc_oblig_named::forms::{at_most, lin_form, negated_form, never, not_all_none};
use acc_oblig_named::naming::named_lin;
use std::alloc::{AllocError, Global};

/// A relation of linear values.
fn guard_rel(alloc: Global, n: &Naming, r: &LinRel) -> Result<Rel, AllocError>
    ensures { IfOk result (λ g. g ≡ guard_rel n.now r.now) }
{
    let named = named_lin(alloc, n, &r.lin)?;
    Ok(Rel {
        form: lin_form(alloc, &named)?,
        equal: r.equal,
    })
}

/// Adds relations of linear values.
pub fn add_guard_rels(
    alloc: Global,
    out: &mut Seq<Rel>,
    n: &Naming,
    rs: &[LinRel],
) -> Result<(), AllocError>
    ensures { OnOk result (out.new ≡ out.old ++ map (guard_rel n.now) rs.now) }
{
    for r in rs {
        out.push(guard_rel(alloc, n, r)?)?;
    }
    Ok(())
}

/// The negation of a relation of linear values: what isn't 0, or is at least 1.
fn denied(alloc: Global, n: &Naming, r: &LinRel) -> Result<Rel, AllocError>
    ensures { IfOk result (λ g. g ≡ denied n.now r.now) }
{
    let named = named_lin(alloc, n, &r.lin)?;
    if r.equal {
        let mut under: Seq<Lin> = Seq::new(alloc);
        under.push(named)?;
        return not_all_none(alloc, under);
    }
    let mut form = negated_form(alloc, &named)?;
    form.constant = 1 - (named.constant as i128);
    Ok(at_most(form))
}

/// The negation of the last relation, and what never holds where there is none.
fn last_denied(alloc: Global, n: &Naming, guard: &[LinRel]) -> Result<Rel, AllocError>
    ensures { IfOk result (λ g. g ≡ last_denied n.now guard.now) }
{
    match guard.last() {
        Some(last) => denied(alloc, n, last),
        None => Ok(never(alloc)),
    }
}

/// The relations but the last.
fn but_last(guard: &[LinRel]) -> &[LinRel]
    ensures { result.now ≡ but_last guard.now }
{
    match guard.len() {
        0 => guard,
        n => &guard[..n - 1],
    }
}

/// That a guard isn't true: where its relations but the last are, the last isn't.
pub fn untaken(alloc: Global, n: &Naming, guard: &[LinRel]) -> Result<Clause, AllocError>
    ensures { IfOk result (λ c. c ≡ untaken n.now guard.now) }
{
    let mut guards = Seq::new(alloc);
    add_guard_rels(alloc, &mut guards, n, but_last(guard))?;
    Ok(Clause {
        vars: Seq::new(alloc),
        guards,
        rel: last_denied(alloc, n, guard)?,
    })
}
