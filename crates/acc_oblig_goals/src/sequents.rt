//! The obligations of a clause's goals.
ghost use Rattle.std.specs.Prelude.{◌≡◌, ◌++◌, ◌∷◌, [], ◌+◌, ◌<◌, ◌^◌, false, length, map, IfOk, OnOk};
ghost use Rattle.acc_oblig.specs.Drafts.{goal_drafts};
ghost use Rattle.acc_oblig_goals.specs.Causes.{sequents, Adds, at_case};
ghost use Rattle.acc_oblig_goals.specs.Shares.{after_drafts};

use crate::clauses::goals_after;
use crate::errors::ObligError;
use acc_base::forms::{Clause, Form, Rel};
use acc_base::sequences::{Seq, copied};
use acc_base::sequents::{Origin, Sequent};
use acc_base::steps::Action;
use acc_oblig::naming::Naming;
use std::alloc::{AllocError, Global};

/// What the obligations of a clause have in common: where they come from, how many variables they have, their hypotheses and
/// relations.
#[derive(Drop)]
pub struct Shared {
    pub origin: Origin,
    pub vars: u32,
    pub hyps: Seq<Clause>,
    pub rels: Seq<Rel>,
}

/// The same place, of the obligation with this case.
pub fn at_case(origin: &Origin, case: u32) -> Origin
    ensures { result ≡ at_case origin.now case }
{
    let mut origin = *origin;
    origin.case = case;
    origin
}

/// The obligation of a goal, with its case.
pub fn sequent(shared: &Shared, case: u32, goal: &Form) -> Result<Sequent, AllocError>
    ensures { IfOk result (λ q. q ≡ record {
      origin = at_case shared.now.origin case;
      vars = shared.now.vars;
      hyps = shared.now.hyps;
      rels = shared.now.rels;
      goal = goal.now;
    }) }
{
    Ok(Sequent {
        origin: at_case(&shared.origin, case),
        vars: shared.vars,
        hyps: copied(&shared.hyps)?,
        rels: copied(&shared.rels)?,
        goal: copied(goal)?,
    })
}

/// Adds an obligation a goal, the first with case 1.
pub fn add_goals(out: &mut Seq<Sequent>, shared: &Shared, goals: &[Form]) -> Result<(), AllocError>
    requires { length goals.now < 2 ^ 31 }
    ensures { OnOk result (out.new ≡ out.old ++ sequents
        (goal_drafts (at_case shared.now.origin) shared.now.vars shared.now.hyps shared.now.rels false 1 goals.now)) }
{
    for (i, goal) in goals.iter().enumerate() {
        out.push(sequent(shared, i as u32 + 1, goal)?)?;
    }
    Ok(())
}

/// Adds the obligations of a clause after actions, under its names; its guards after them come behind the other relations.
pub fn add_clause(
    alloc: Global,
    out: &mut Seq<Sequent>,
    mut shared: Shared,
    actions: &[Action],
    n: &Naming,
    c: &Clause,
) -> Result<(), ObligError>
    requires { shared.origin.case ≡ 1 }
    ensures { Adds result out.old out.new (after_drafts shared actions.now n.now c.now) }
{
    let goals = goals_after(alloc, &mut shared.rels, &shared.origin, actions, n, c)?;
    add_goals(out, &shared, goals.as_slice())?;
    Ok(())
}
