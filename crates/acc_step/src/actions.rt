//! The actions of a path, one after the other, as writes.
ghost use Rattle.std.specs.Prelude.{◌≡◌, ◌≤◌, ◌^◌, length, All, Some, None, IfOk, IsErrOf, OnOk, true, false};
ghost use Rattle.acc_step.specs.Variables.{values_of};
ghost use Rattle.acc_base.specs.Tables.{IsInOrder};
ghost use Rattle.acc_base.specs.Actions.{after_action, after_actions};
ghost use Rattle.acc_base.specs.Runnable.{CanAct};
ghost use Rattle.acc_store.specs.Bounds.{AreWithin};
ghost use Rattle.acc_store.specs.Rows.{written, IsNarrow};
ghost use Rattle.acc_step.specs.Changing.{may_act};

use crate::changes::evaluated;
use crate::errors::StepError;
use crate::variables::Variables;
use crate::writers::make_change;
use acc_base::bounds::{LARGEST_SUM, MOST_ACTIONS};
use acc_base::designs::Side;
use acc_base::steps::Action;
use acc_store::{Store, Write};
use std::alloc::Global;

/// One action, which sees the writes of those before it.
fn act<S: Store>(
    alloc: Global,
    s: &S,
    side: Side,
    action: &Action,
    variables: &Variables,
    writes: &mut Vec<Write>,
) -> Result<(), StepError>
    requires can { CanAct action.now }
    requires order { IsInOrder (S.rows s.now) }
    requires narrow { All IsNarrow writes.old.items }
    requires within { AreWithin (2 ^ 121) (written writes.old.items (S.rows s.now)) }
    ensures rows { OnOk result (written writes.new.items (S.rows s.now)
        ≡ after_action (values_of variables.now) action.now (written writes.old.items (S.rows s.now))) }
    ensures in_range { OnOk result (may_act side (values_of variables.now) action.now (written writes.old.items (S.rows s.now)) ≡ true) }
    ensures range { IsErrOf result StepError.Range
        → may_act side (values_of variables.now) action.now (written writes.old.items (S.rows s.now)) ≡ false }
    ensures narrow { OnOk result (All IsNarrow writes.new.items) }
{
    match evaluated(action, variables) {
        Some(change) => make_change(alloc, s, side, &change, writes),
        None => Err(StepError::Range),
    }
}

/// The writes of the actions of a path.
pub fn act_all<S: Store>(
    alloc: Global,
    s: &S,
    side: Side,
    actions: &[Action],
    variables: &Variables,
) -> Result<Vec<Write>, StepError>
    requires can { All CanAct actions.now }
    requires few { length actions.now ≤ MOST_ACTIONS }
    requires order { IsInOrder (S.rows s.now) }
    requires within { AreWithin LARGEST_SUM (S.rows s.now) }
    ensures rows { IfOk result (λ ws. after_actions side (values_of variables.now) actions.now (S.rows s.now)
        ≡ Some (written ws.items (S.rows s.now))) }
    ensures range { IsErrOf result StepError.Range → after_actions side (values_of variables.now) actions.now (S.rows s.now) ≡ None }
    ensures narrow { IfOk result (λ ws. All IsNarrow ws.items) }
{
    let mut writes = Vec::new(alloc);
    for action in actions {
        act(alloc, s, side, action, variables, &mut writes)?;
    }
    Ok(writes)
}
