//! Instances, with what they say.
ghost use Rattle.std.specs.Prelude.{◌≡◌, map, IfOk};
ghost use Rattle.std.specs.List.{list_any};
ghost use Rattle.acc_base.specs.Sums.{TellsWide};
ghost use Rattle.acc_inst.specs.Making.{rel_at, is_rel_wide, clause_at, is_clause_wide, nowhere, instance_of, is_instance_wide};

use acc_base::forms::{Clause, Form, Lin, Rel};
use acc_base::sequences::Seq;
use acc_base::sequents::Sequent;
use acc_base::sums::FormSum;
use acc_instances::instances::relation_at;
use acc_prover_choices::targets::copied_lins;
use std::alloc::{AllocError, Global};

/// A hypothesis, by its number, at linear values for its own variables: its guards and its relation there.
#[derive(Drop)]
pub struct Instance {
    pub hypothesis: u32,
    pub values: Seq<Lin>,
    pub guards: Seq<Rel>,
    pub rel: Rel,
}

/// Guards at linear values.
fn guards_at(alloc: Global, n: u32, own: &[Lin], guards: &[Rel]) -> Result<Seq<Rel>, FormSum>
    ensures value { IfOk result (λ v. v ≡ map (rel_at n own.now) guards.now) }
    ensures wide { TellsWide result (list_any (is_rel_wide n own.now) guards.now) }
{
    let mut list = Seq::new(alloc);
    for guard in guards {
        list.push(relation_at(alloc, n, own, guard)?)?;
    }
    Ok(list)
}

/// A hypothesis at linear values.
fn clause_at(
    alloc: Global,
    n: u32,
    chosen: &(u32, Seq<Lin>),
    clause: &Clause,
) -> Result<Instance, FormSum>
    ensures value { IfOk result (λ i. i ≡ clause_at n chosen.now clause.now) }
    ensures wide { TellsWide result (is_clause_wide n chosen.now.1 clause.now) }
{
    let own = chosen.1.as_slice();
    let guards = guards_at(alloc, n, own, clause.guards.as_slice())?;
    let rel = relation_at(alloc, n, own, &clause.rel)?;
    let values = copied_lins(alloc, own)?;
    Ok(Instance {
        hypothesis: chosen.0,
        values,
        guards,
        rel,
    })
}

fn nowhere(alloc: Global, chosen: &(u32, Seq<Lin>)) -> Result<Instance, AllocError>
    ensures { IfOk result (λ i. i ≡ nowhere chosen.now) }
{
    let form = Form {
        terms: Seq::new(alloc),
        constant: 0,
    };
    Ok(Instance {
        hypothesis: chosen.0,
        values: copied_lins(alloc, chosen.1.as_slice())?,
        guards: Seq::new(alloc),
        rel: Rel { form, equal: true },
    })
}

/// The instance of a hypothesis, by its number and the values for its own variables.
fn instance_of(
    alloc: Global,
    sequent: &Sequent,
    chosen: &(u32, Seq<Lin>),
) -> Result<Instance, FormSum>
    ensures value { IfOk result (λ i. i ≡ instance_of sequent.now chosen.now) }
    ensures wide { TellsWide result (is_instance_wide sequent.now chosen.now) }
{
    match sequent.hyps.as_slice().get(chosen.0 as usize) {
        Some(clause) => clause_at(alloc, sequent.vars, chosen, clause),
        None => Ok(nowhere(alloc, chosen)?),
    }
}

/// The instances of hypotheses; `Wide` where a number of one is too large.
pub fn instances_at(
    alloc: Global,
    sequent: &Sequent,
    insts: &[(u32, Seq<Lin>)],
) -> Result<Seq<Instance>, FormSum>
    ensures value { IfOk result (λ v. v ≡ map (instance_of sequent.now) insts.now) }
    ensures wide { TellsWide result (list_any (is_instance_wide sequent.now) insts.now) }
{
    let mut made = Seq::new(alloc);
    for chosen in insts {
        made.push(instance_of(alloc, sequent, chosen)?)?;
    }
    Ok(made)
}
