//! The obligations of goals for both orders of the held number and the step's.
ghost use Rattle.std.specs.Prelude.{◌≡◌, ◌++◌, ◌∷◌, ◌<◌, ◌^◌, false, length, IfOk, OnOk};
ghost use Rattle.acc_oblig.specs.Spares.{ordered_drafts};
ghost use Rattle.acc_oblig_goals.specs.Causes.{sequents, Adds, at_case};
ghost use Rattle.acc_oblig_paths.specs.Orders.{after_ordered};

use acc_base::forms::{Clause, Form, Rel};
use acc_base::sequences::{Seq, copied};
use acc_base::sequents::{Origin, Sequent};
use acc_base::steps::Action;
use acc_oblig::naming::Naming;
use acc_oblig_goals::clauses::goals_after;
use acc_oblig_goals::errors::ObligError;
use acc_oblig_goals::sequents::at_case;
use std::alloc::{AllocError, Global};

/// What the obligations of a clause have in common: where they come from, how many variables they have, their hypotheses, and
/// their relations before and behind the order; and the two orders.
#[derive(Drop)]
pub struct Ordered {
    pub origin: Origin,
    pub vars: u32,
    pub hyps: Seq<Clause>,
    pub first: Seq<Rel>,
    pub lower: Rel,
    pub higher: Rel,
    pub rest: Seq<Rel>,
}

/// Adds relations.
fn add_copies(out: &mut Seq<Rel>, rels: &[Rel]) -> Result<(), AllocError>
    ensures { OnOk result (out.new ≡ out.old ++ rels.now) }
{
    for r in rels {
        out.push(copied(r)?)?;
    }
    Ok(())
}

/// The relations with an order between the first and the others.
fn with_order(first: &Seq<Rel>, order: &Rel, rest: &Seq<Rel>) -> Result<Seq<Rel>, AllocError>
    ensures { IfOk result (λ rs. rs ≡ first.now ++ order.now ∷ rest.now) }
{
    let mut rels = copied(first)?;
    rels.push(copied(order)?)?;
    add_copies(&mut rels, rest.as_slice())?;
    Ok(rels)
}

/// The obligation of a goal under an order, with its case.
fn under_order(o: &Ordered, order: &Rel, case: u32, goal: &Form) -> Result<Sequent, AllocError>
    ensures { IfOk result (λ q. q ≡ record {
      origin = at_case o.now.origin case;
      vars = o.now.vars;
      hyps = o.now.hyps;
      rels = o.now.first ++ order.now ∷ o.now.rest;
      goal = goal.now;
    }) }
{
    Ok(Sequent {
        origin: at_case(&o.origin, case),
        vars: o.vars,
        hyps: copied(&o.hyps)?,
        rels: with_order(&o.first, order, &o.rest)?,
        goal: copied(goal)?,
    })
}

/// Adds two obligations a goal, the lower order first, from case 1 on.
fn add_ordered(out: &mut Seq<Sequent>, o: &Ordered, goals: &[Form]) -> Result<(), AllocError>
    requires { length goals.now < 2 ^ 30 }
    ensures { OnOk result (out.new ≡ out.old ++ sequents (ordered_drafts (at_case o.now.origin) o.now.vars o.now.hyps o.now.first
        o.now.lower o.now.higher o.now.rest false 1 goals.now)) }
{
    let mut case = 1;
    for goal in goals {
        out.push(under_order(o, &o.lower, case, goal)?)?;
        out.push(under_order(o, &o.higher, case + 1, goal)?)?;
        case += 2;
    }
    Ok(())
}

/// Adds the obligations of a clause after actions, under its names; its guards after them come behind the other relations.
pub fn add_clause(
    alloc: Global,
    out: &mut Seq<Sequent>,
    mut o: Ordered,
    actions: &[Action],
    n: &Naming,
    c: &Clause,
) -> Result<(), ObligError>
    requires { o.origin.case ≡ 1 }
    ensures { Adds result out.old out.new (after_ordered o actions.now n.now c.now) }
{
    let goals = goals_after(alloc, &mut o.rest, &o.origin, actions, n, c)?;
    add_ordered(out, &o, goals.as_slice())?;
    Ok(())
}
