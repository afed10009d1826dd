//! The weakest precondition of actions.
ghost use Rattle.std.specs.Prelude.{◌≡◌, IfOk};
ghost use Rattle.acc_preconditions.specs.Preconditions.{before_action, before_actions, is_action_wide, are_actions_wide, wp_of, is_wp_wide};
ghost use Rattle.acc_preconditions.specs.Laws.{IsWeakest};
ghost use Rattle.acc_base.specs.Sums.{TellsWide as SumTellsWide};
ghost use Rattle.acc_wp.specs.Causes.{TellsWide};

use crate::errors::WpError;
use crate::gains::gained;
use acc_base::forms::{Form, Rel};
use acc_base::sequences::copied;
use acc_base::steps::Action;
use acc_base::sums::FormSum;
use std::alloc::Global;

/// The form that is worth before an action what the given one is worth after it.
fn before_action(alloc: Global, action: &Action, mut form: Form) -> Result<Form, FormSum>
    ensures value { IfOk result (λ f. f ≡ before_action action.now form) }
    ensures wide { SumTellsWide result (is_action_wide action.now form) }
{
    let gained = gained(alloc, action, &form)?;
    form.constant = 0;
    form.plus(alloc, &gained, 1)
}

/// The form that is worth before actions what the given one is worth after them.
fn before_actions(alloc: Global, actions: &[Action], form: &Form) -> Result<Form, FormSum>
    ensures value { IfOk result (λ f. f ≡ before_actions actions.now form.now) }
    ensures wide { SumTellsWide result (are_actions_wide actions.now form.now) }
{
    let mut before = copied(form)?;
    for action in actions.iter().rev() {
        before = before_action(alloc, action, before)?;
    }
    Ok(before)
}

/// The weakest precondition of actions, which happen one after the other: the relation that is true of rows before them exactly
/// where `r` is true of the rows after them.
///
/// From the last action to the first, each term of the form on the action's table gains what the action adds to it, under the
/// condition that the action's key is the term's key or begins with its prefix; and then the terms are collected.
///
/// `Wide` exactly where a number on the way is too large: a coefficient or a constant of a difference of keys beyond 64 bits, or
/// another number beyond 2^120 on either side of 0. `Memory` where memory ran out; it says nothing of the numbers.
///
/// The law holds for all rows in order that have the shapes of some tables over which the actions and `r` keep their shapes, and
/// where the row of each `set` and `add` is there when its turn comes; a call that doesn't keep them is answered by the same rule.
///
/// The cost is for each action that of collecting the terms, each compared with each other.
pub fn wp(alloc: Global, actions: &[Action], r: &Rel) -> Result<Rel, WpError>
    ensures value { IfOk result (λ before. before ≡ wp_of actions.now r.now) }
    ensures wide { TellsWide result (is_wp_wide actions.now r.now) }
    ensures law { IfOk result (λ before. IsWeakest actions.now r.now before) }
{
    let form = before_actions(alloc, actions, &r.form)?;
    Ok(Rel {
        form,
        equal: r.equal,
    })
}
