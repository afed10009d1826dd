//! Whether the numbers of actions are in range, without memory.
ghost use Rattle.std.specs.Prelude.{◌≡◌, ◌≤◌, ◌^◌, ◌+ℤ◌, length, All, is_some, unsigned_abs};
ghost use Rattle.acc_base.specs.Numbers.{is_small};
ghost use Rattle.acc_step.specs.Variables.{values_of};
ghost use Rattle.acc_base.specs.declared.designs.Side.TheVariants.{Next as Forward};
ghost use Rattle.acc_base.specs.Tables.{IsInOrder};
ghost use Rattle.acc_base.specs.Actions.{after_actions};
ghost use Rattle.acc_base.specs.Runnable.{CanAct};
ghost use Rattle.acc_store.specs.Bounds.{AreWithin};
ghost use Rattle.acc_step.specs.Overlay.{columns_at};
ghost use Rattle.acc_step.specs.Changing.{place_at, change_if_small};
ghost use Rattle.acc_step.specs.RowColumns.{key_of, columns_through, may_add_to, may_make, may_follow};

use crate::changes::{RowChange, RowKey, evaluated};
use crate::values::in_range;
use crate::variables::Variables;
use crate::walks::columns_past;
use crate::writers::{near_sum, value_at};
use acc_base::bounds::{LARGEST_SUM, MOST_ACTIONS};
use acc_base::designs::Side;
use acc_base::steps::Action;
use acc_store::Store;

/// Whether a number is in range.
fn is_in_range(v: i128) -> bool
    ensures { result ≡ is_small v }
{
    in_range(v).is_some()
}

/// Whether a forward step may store a sum.
fn is_sum_in_range(value: i128, more: i64) -> bool
    requires near { unsigned_abs value ≤ 2 ^ 121 }
    ensures { result ≡ is_small (value +ℤ more) }
{
    is_in_range(near_sum(value, more))
}

/// Whether a forward step may store the sum of an `add`, after the actions before it.
fn may_add_forward<S: Store>(
    s: &S,
    key: &RowKey,
    col: u32,
    more: i64,
    before: &[Action],
    variables: &Variables,
) -> bool
    requires can { All CanAct before.now }
    requires few { length before.now ≤ MOST_ACTIONS }
    requires within { AreWithin LARGEST_SUM (S.rows s.now) }
    ensures { result ≡ may_add_to Forward col more
        (columns_through (values_of variables.now) (place_at key.now) before.now (columns_at (place_at key.now) (S.rows s.now))) }
{
    match columns_past(s, before, key.table, key.parts.as_slice(), variables) {
        Some(cols) => is_sum_in_range(value_at(cols.as_slice(), col), more),
        None => true,
    }
}

/// Whether the sum of an `add` may be stored, after the actions before it.
fn may_add<S: Store>(
    s: &S,
    side: Side,
    key: &RowKey,
    col: u32,
    more: i64,
    before: &[Action],
    variables: &Variables,
) -> bool
    requires can { All CanAct before.now }
    requires few { length before.now ≤ MOST_ACTIONS }
    requires within { AreWithin LARGEST_SUM (S.rows s.now) }
    ensures { result ≡ may_add_to side col more
        (columns_through (values_of variables.now) (place_at key.now) before.now (columns_at (place_at key.now) (S.rows s.now))) }
{
    match side {
        Side::Next => may_add_forward(s, key, col, more, before, variables),
        Side::Undo => true,
    }
}

/// Whether a change may be made, after the actions before it.
fn may_change_row<S: Store>(
    s: &S,
    side: Side,
    change: &RowChange,
    before: &[Action],
    variables: &Variables,
) -> bool
    requires can { All CanAct before.now }
    requires few { length before.now ≤ MOST_ACTIONS }
    requires within { AreWithin LARGEST_SUM (S.rows s.now) }
    ensures { result ≡ may_make side change.now
        (columns_through (values_of variables.now) (place_at (key_of change.now)) before.now
        (columns_at (place_at (key_of change.now)) (S.rows s.now))) }
{
    match change {
        RowChange::Add(key, col, more) => may_add(s, side, key, *col, *more, before, variables),
        RowChange::Put(_, _) | RowChange::Drop(_) | RowChange::Set(_, _, _) => true,
    }
}

/// Whether the numbers of an action are in range, after the actions before it.
fn is_action_in_range<S: Store>(
    s: &S,
    side: Side,
    action: &Action,
    before: &[Action],
    variables: &Variables,
) -> bool
    requires can { CanAct action.now }
    requires all_can { All CanAct before.now }
    requires few { length before.now ≤ MOST_ACTIONS }
    requires within { AreWithin LARGEST_SUM (S.rows s.now) }
    ensures { result ≡ may_follow side (change_if_small (values_of variables.now) action.now)
        (λ p. columns_through (values_of variables.now) p before.now (columns_at p (S.rows s.now))) }
{
    match evaluated(action, variables) {
        Some(change) => may_change_row(s, side, &change, before, variables),
        None => false,
    }
}

/// Whether the numbers of the actions of a path are in range. An `add` walks the actions before it.
pub fn are_in_range<S: Store>(s: &S, side: Side, actions: &[Action], variables: &Variables) -> bool
    requires can { All CanAct actions.now }
    requires few { length actions.now ≤ MOST_ACTIONS }
    requires order { IsInOrder (S.rows s.now) }
    requires within { AreWithin LARGEST_SUM (S.rows s.now) }
    ensures { result ≡ is_some (after_actions side (values_of variables.now) actions.now (S.rows s.now)) }
{
    for i in 0..actions.len() {
        if !is_action_in_range(s, side, &actions[i], &actions[..i], variables) {
            return false;
        }
    }
    true
}
