//! Obligations whose numbers can't be too large.
ghost use Rattle.std.specs.Prelude.{◌<◌, ◌^◌, [], ◌∷◌, false, length};
ghost use Rattle.acc_oblig.specs.Drafts.{goal_drafts};
ghost use Rattle.acc_oblig_goals.specs.Causes.{Adds, at_case};

use crate::errors::ObligError;
use crate::sequents::{Shared, add_goals};
use acc_base::forms::Form;
use acc_base::sequences::Seq;
use acc_base::sequents::Sequent;
use std::alloc::Global;

/// Adds an obligation a goal, the first with case 1.
pub fn add_small_goals(
    out: &mut Seq<Sequent>,
    shared: &Shared,
    goals: &[Form],
) -> Result<(), ObligError>
    requires { length goals.now < 2 ^ 31 }
    ensures { Adds result out.old out.new
        (goal_drafts (at_case shared.now.origin) shared.now.vars shared.now.hyps shared.now.rels false 1 goals.now) }
{
    add_goals(out, shared, goals)?;
    Ok(())
}

/// Adds the obligation of one goal.
pub fn add_goal(
    alloc: Global,
    out: &mut Seq<Sequent>,
    shared: &Shared,
    goal: Form,
) -> Result<(), ObligError>
    ensures { Adds result out.old out.new
        (goal_drafts (at_case shared.now.origin) shared.now.vars shared.now.hyps shared.now.rels false 1 (goal ∷ [])) }
{
    let mut goals = Seq::new(alloc);
    goals.push(goal)?;
    add_small_goals(out, shared, goals.as_slice())
}
