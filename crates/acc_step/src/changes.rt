//! Actions whose numbers are worked out.
ghost use Rattle.std.specs.Prelude.{◌≡◌, ◌≤◌, length};
ghost use Rattle.acc_step.specs.Variables.{values_of};
ghost use Rattle.acc_base.specs.Runnable.{IsKey, CanAct};
ghost use Rattle.acc_base.specs.declared.steps.Action.TheVariants.{Put as ToPut, Del as ToDrop, Set as ToSet, Add as ToAdd};
ghost use Rattle.acc_step.specs.Changing.{change_if_small};

use crate::values::{key_in_range, linear_in_range, linears_in_range};
use crate::variables::Variables;
use acc_base::bounds::{MOST_COLUMNS, MOST_KEY_PARTS};
use acc_base::forms::Lin;
use acc_base::steps::Action;
use acc_store::Inline;

/// The table and key of a row.
#[derive(Drop)]
pub struct RowKey {
    pub table: u32,
    pub parts: Inline<i64, MOST_KEY_PARTS>,
}

/// A change of a row: of its columns, or of one of them.
#[derive(Drop)]
pub enum RowChange {
    Put(RowKey, Inline<i64, MOST_COLUMNS>),
    Drop(RowKey),
    Set(RowKey, u32, i64),
    Add(RowKey, u32, i64),
}

/// The row that an action puts, if its numbers are in range.
fn to_put(table: u32, key: &[Lin], values: &[Lin], variables: &Variables) -> Option<RowChange>
    requires key { IsKey key.now }
    requires few { length values.now ≤ MOST_COLUMNS }
    ensures { result ≡ change_if_small (values_of variables.now) (ToPut table key.now values.now) }
{
    let parts = key_in_range(key, variables)?;
    let columns = linears_in_range(values, variables)?;
    Some(RowChange::Put(RowKey { table, parts }, columns))
}

/// The row that an action drops, if the parts of its key are in range.
fn to_drop(table: u32, key: &[Lin], variables: &Variables) -> Option<RowChange>
    requires key { IsKey key.now }
    ensures { result ≡ change_if_small (values_of variables.now) (ToDrop table key.now) }
{
    let parts = key_in_range(key, variables)?;
    Some(RowChange::Drop(RowKey { table, parts }))
}

/// The column that an action sets, if its numbers are in range.
fn to_set(
    table: u32,
    key: &[Lin],
    col: u32,
    value: &Lin,
    variables: &Variables,
) -> Option<RowChange>
    requires key { IsKey key.now }
    ensures { result ≡ change_if_small (values_of variables.now) (ToSet table key.now col value.now) }
{
    let parts = key_in_range(key, variables)?;
    let value = linear_in_range(value, variables)?;
    Some(RowChange::Set(RowKey { table, parts }, col, value))
}

/// The column that an action adds to, if its numbers are in range.
fn to_add(
    table: u32,
    key: &[Lin],
    col: u32,
    value: &Lin,
    variables: &Variables,
) -> Option<RowChange>
    requires key { IsKey key.now }
    ensures { result ≡ change_if_small (values_of variables.now) (ToAdd table key.now col value.now) }
{
    let parts = key_in_range(key, variables)?;
    let value = linear_in_range(value, variables)?;
    Some(RowChange::Add(RowKey { table, parts }, col, value))
}

/// The change that an action makes, if its numbers are in range.
pub fn evaluated(action: &Action, variables: &Variables) -> Option<RowChange>
    requires can { CanAct action.now }
    ensures { result ≡ change_if_small (values_of variables.now) action.now }
{
    match action {
        Action::Put(table, key, values) => {
            to_put(*table, key.as_slice(), values.as_slice(), variables)
        }
        Action::Del(table, key) => to_drop(*table, key.as_slice(), variables),
        Action::Set(table, key, col, value) => {
            to_set(*table, key.as_slice(), *col, value, variables)
        }
        Action::Add(table, key, col, value) => {
            to_add(*table, key.as_slice(), *col, value, variables)
        }
    }
}
