//! The columns of one row as the actions of a path change it, without memory.
ghost use Rattle.std.specs.Prelude.{◌≡◌, ◌≤◌, ◌^◌, length, All, slice_set, unsigned_abs};
ghost use Rattle.acc_step.specs.Variables.{values_of};
ghost use Rattle.acc_base.specs.Runnable.{CanAct};
ghost use Rattle.acc_store.specs.Bounds.{AreWithin};
ghost use Rattle.acc_step.specs.Overlay.{columns_at, sum_in};
ghost use Rattle.acc_step.specs.Changing.{change_if_small};
ghost use Rattle.acc_step.specs.RowColumns.{key_of, columns_made, columns_moved, columns_acted, columns_through, AreNear};

use crate::changes::{RowChange, RowKey, evaluated};
use crate::lookups::is_place;
use crate::values::widened;
use crate::variables::Variables;
use crate::writers::{near_sum, value_at};
use acc_base::bounds::{LARGEST_SUM, MOST_ACTIONS, MOST_COLUMNS};
use acc_base::steps::Action;
use acc_store::{Inline, Store};

/// The columns with one of them set, where there is such a one.
fn with_cell(cols: Inline<i128, MOST_COLUMNS>, col: u32, value: i128) -> Inline<i128, MOST_COLUMNS>
    ensures { result ≡ slice_set cols col value }
{
    let mut cols = cols;
    cols.set(col as usize, value);
    cols
}

/// The columns with a number added to one of them, where there is such a one.
fn with_sum(cols: Inline<i128, MOST_COLUMNS>, col: u32, more: i64) -> Inline<i128, MOST_COLUMNS>
    requires near { All (λ v. unsigned_abs v ≤ 2 ^ 121) cols }
    ensures { result ≡ slice_set cols col (sum_in col more cols) }
{
    let sum = near_sum(value_at(cols.as_slice(), col), more);
    with_cell(cols, col, sum)
}

/// Numbers as columns.
fn widened_columns(values: &[i64]) -> Inline<i128, MOST_COLUMNS>
    requires few { length values.now ≤ MOST_COLUMNS }
    ensures { result ≡ values.now }
{
    let mut cols = Inline::new(0);
    for value in values {
        cols.push(widened(*value));
    }
    cols
}

/// The key of the row that a change is of.
fn changed_key(change: &RowChange) -> &RowKey
    ensures { result.now ≡ key_of change.now }
{
    match change {
        RowChange::Put(key, _) => key,
        RowChange::Drop(key) => key,
        RowChange::Set(key, _, _) => key,
        RowChange::Add(key, _, _) => key,
    }
}

/// The columns of a row after a change of it.
fn columns_changed(
    cols: Option<Inline<i128, MOST_COLUMNS>>,
    change: &RowChange,
) -> Option<Inline<i128, MOST_COLUMNS>>
    requires near { AreNear (2 ^ 121) cols }
    ensures { result ≡ columns_made change.now cols }
{
    match change {
        RowChange::Put(_, values) => Some(widened_columns(values.as_slice())),
        RowChange::Drop(_) => None,
        RowChange::Set(_, col, value) => Some(with_cell(cols?, *col, widened(*value))),
        RowChange::Add(_, col, more) => Some(with_sum(cols?, *col, *more)),
    }
}

/// The columns at a key after a change.
fn columns_with_change(
    cols: Option<Inline<i128, MOST_COLUMNS>>,
    change: &RowChange,
    table: u32,
    key: &[i64],
) -> Option<Inline<i128, MOST_COLUMNS>>
    requires near { AreNear (2 ^ 121) cols }
    ensures { result ≡ columns_moved (table, key.now) change.now cols }
{
    let other = changed_key(change);
    if is_place(table, key, other.table, other.parts.as_slice()) {
        columns_changed(cols, change)
    } else {
        cols
    }
}

/// The columns at a key after an action whose numbers are in range.
fn columns_with_action(
    cols: Option<Inline<i128, MOST_COLUMNS>>,
    action: &Action,
    table: u32,
    key: &[i64],
    variables: &Variables,
) -> Option<Inline<i128, MOST_COLUMNS>>
    requires can { CanAct action.now }
    requires near { AreNear (2 ^ 121) cols }
    ensures { result ≡ columns_acted (table, key.now) (change_if_small (values_of variables.now) action.now) cols }
{
    if action.table() != table {
        return cols;
    }
    match evaluated(action, variables) {
        Some(change) => columns_with_change(cols, &change, table, key),
        None => cols,
    }
}

/// The columns of the row at a key in a store, if there is one.
fn columns_stored<S: Store>(s: &S, table: u32, key: &[i64]) -> Option<Inline<i128, MOST_COLUMNS>>
    ensures { result ≡ columns_at (table, key.now) (S.rows s.now) }
{
    match s.columns(table, key) {
        Some(cols) => Some(Inline::from_slice(0, cols)),
        None => None,
    }
}

/// The columns of the row at a key after actions over the rows of a store, if there is one. It walks the actions.
pub fn columns_past<S: Store>(
    s: &S,
    actions: &[Action],
    table: u32,
    key: &[i64],
    variables: &Variables,
) -> Option<Inline<i128, MOST_COLUMNS>>
    requires can { All CanAct actions.now }
    requires few { length actions.now ≤ MOST_ACTIONS }
    requires within { AreWithin LARGEST_SUM (S.rows s.now) }
    ensures value { result ≡ columns_through (values_of variables.now) (table, key.now) actions.now
        (columns_at (table, key.now) (S.rows s.now)) }
    ensures near { AreNear (2 ^ 121) result }
{
    let mut cols = columns_stored(s, table, key);
    for action in actions {
        cols = columns_with_action(cols, action, table, key, variables);
    }
    cols
}
