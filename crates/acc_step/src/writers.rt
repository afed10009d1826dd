//! Changes of rows, as writes over the rows of a store.
ghost use Rattle.std.specs.Prelude.{◌≡◌, ◌≤◌, ◌^◌, length, All, Some, None, IfOk, IfSome, IsErrOf, OnOk, if◌then◌else◌, slice_set};
ghost use Rattle.std.specs.Prelude.{slice_index_or, pos, ◌+ℤ◌, unsigned_abs, true, false};
ghost use Rattle.acc_base.specs.Tables.{IsInOrder};
ghost use Rattle.acc_store.specs.Bounds.{AreWithin};
ghost use Rattle.acc_store.specs.Rows.{written, row_of, IsNarrow};
ghost use Rattle.acc_store.specs.declared.writes.Write.TheVariants.{Row as Puts, Gone};
ghost use Rattle.acc_step.specs.InRange.{if_small};
ghost use Rattle.acc_step.specs.Overlay.{may_store, columns_at, put_with, set_of, add_of, with_write};
ghost use Rattle.acc_step.specs.Changing.{place_at, changed, may_change};
ghost use Rattle.acc_step.specs.declared.changes.RowChange.TheVariants.{Set as ToSet, Add as ToAdd};

use crate::changes::{RowChange, RowKey};
use crate::errors::StepError;
use crate::lookups::columns_now;
use crate::values::{in_range, widened};
use acc_base::bounds::{MOST_COLUMNS, MOST_KEY_PARTS};
use acc_base::designs::Side;
use acc_base::sequences::Seq;
use acc_base::tables::{Key, Row};
use acc_store::{Store, Write};
use std::alloc::{AllocError, Global};

/// Adds a write.
fn push(writes: &mut Vec<Write>, write: Write) -> Result<(), AllocError>
    requires narrow { IsNarrow write }
    requires all_narrow { All IsNarrow writes.old.items }
    ensures value { OnOk result (writes.new.items ≡ with_write writes.old.items (Some write)) }
    ensures narrow { OnOk result (All IsNarrow writes.new.items) }
{
    writes.push(write)?;
    Ok(())
}

/// Adds a write, if there is one.
fn push_if(writes: &mut Vec<Write>, write: Option<Write>) -> Result<(), AllocError>
    requires narrow { IfSome write IsNarrow }
    requires all_narrow { All IsNarrow writes.old.items }
    ensures value { OnOk result (writes.new.items ≡ with_write writes.old.items write) }
    ensures narrow { OnOk result (All IsNarrow writes.new.items) }
{
    match write {
        Some(write) => push(writes, write),
        None => Ok(()),
    }
}

/// The key of a row, in memory of its own.
fn owned_key(alloc: Global, key: &RowKey) -> Result<Key, AllocError>
    ensures parts { IfOk result (λ k. k.parts ≡ key.now.parts) }
    ensures short { IfOk result (λ k. length k.parts ≤ MOST_KEY_PARTS) }
{
    Ok(Key {
        parts: Seq::from_vec(Vec::from_slice(alloc, key.parts.as_slice())?),
    })
}

/// The write of a row.
fn put_write(alloc: Global, key: &RowKey, cols: Vec<i128>) -> Result<Write, AllocError>
    requires few { length cols.items ≤ MOST_COLUMNS }
    ensures value { IfOk result (λ w. w ≡ Puts (row_of (place_at key.now) cols.items)) }
    ensures narrow { IfOk result IsNarrow }
{
    Ok(Write::Row(Row {
        table: key.table,
        key: owned_key(alloc, key)?,
        cols: Seq::from_vec(cols),
    }))
}

/// The same numbers in more bits.
fn all_widened(alloc: Global, values: &[i64]) -> Result<Vec<i128>, AllocError>
    ensures { IfOk result (λ v. v.items ≡ values.now) }
{
    let mut all = Vec::with_capacity(alloc, values.len())?;
    for value in values {
        all.push(widened(*value))?;
    }
    Ok(all)
}

/// Puts a row.
fn put_row(
    alloc: Global,
    key: &RowKey,
    columns: &[i64],
    writes: &mut Vec<Write>,
) -> Result<(), AllocError>
    requires few { length columns.now ≤ MOST_COLUMNS }
    requires narrow { All IsNarrow writes.old.items }
    ensures value { OnOk result (writes.new.items ≡ with_write writes.old.items (Some (Puts (row_of (place_at key.now) columns.now)))) }
    ensures narrow { OnOk result (All IsNarrow writes.new.items) }
{
    let cols = all_widened(alloc, columns)?;
    let write = put_write(alloc, key, cols)?;
    push(writes, write)
}

/// Drops a row, if it is there.
fn drop_row(alloc: Global, key: &RowKey, writes: &mut Vec<Write>) -> Result<(), AllocError>
    requires narrow { All IsNarrow writes.old.items }
    ensures value { OnOk result (writes.new.items ≡ with_write writes.old.items
        (Some (Gone key.now.table (record { parts = key.now.parts })))) }
    ensures narrow { OnOk result (All IsNarrow writes.new.items) }
{
    let gone = Write::Gone(key.table, owned_key(alloc, key)?);
    push(writes, gone)
}

/// The columns with one of them set, where there is such a one.
fn with_column(alloc: Global, cols: &[i128], col: u32, value: i128) -> Result<Vec<i128>, AllocError>
    ensures { IfOk result (λ v. v.items ≡ slice_set cols.now col value) }
{
    let mut changed = Vec::from_slice(alloc, cols)?;
    let col = col as usize;
    if col < changed.len() {
        changed[col] = value;
    }
    Ok(changed)
}

/// The write of a row with one column set.
fn write_with(
    alloc: Global,
    key: &RowKey,
    cols: &[i128],
    col: u32,
    value: i128,
) -> Result<Write, AllocError>
    requires few { length cols.now ≤ MOST_COLUMNS }
    ensures value { IfOk result (λ w. w ≡ put_with (place_at key.now) col value cols.now) }
    ensures narrow { IfOk result IsNarrow }
{
    let changed = with_column(alloc, cols, col, value)?;
    put_write(alloc, key, changed)
}

/// The write that sets a column of a row, if the row is there.
fn set_write<S: Store>(
    alloc: Global,
    s: &S,
    key: &RowKey,
    col: u32,
    value: i64,
    writes: &[Write],
) -> Result<Option<Write>, AllocError>
    requires order { IsInOrder (S.rows s.now) }
    requires narrow { All IsNarrow writes.now }
    ensures value { IfOk result (λ w. w ≡ set_of (place_at key.now) col value
        (columns_at (place_at key.now) (written writes.now (S.rows s.now)))) }
    ensures narrow { IfOk result (λ w. IfSome w IsNarrow) }
{
    match columns_now(s, writes, key.table, key.parts.as_slice()) {
        Some(cols) => Ok(Some(write_with(alloc, key, cols, col, widened(value))?)),
        None => Ok(None),
    }
}

/// Sets a column of a row, if the row is there.
fn set_column<S: Store>(
    alloc: Global,
    s: &S,
    key: &RowKey,
    col: u32,
    value: i64,
    writes: &mut Vec<Write>,
) -> Result<(), AllocError>
    requires order { IsInOrder (S.rows s.now) }
    requires narrow { All IsNarrow writes.old.items }
    ensures rows { OnOk result (written writes.new.items (S.rows s.now)
        ≡ changed (ToSet key.now col value) (written writes.old.items (S.rows s.now))) }
    ensures narrow { OnOk result (All IsNarrow writes.new.items) }
{
    let write = set_write(alloc, s, key, col, value, writes.as_slice())?;
    push_if(writes, write)
}

/// A column, which is 0 where there is none.
pub fn value_at(cols: &[i128], col: u32) -> i128
    ensures { result ≡ slice_index_or cols.now col (pos 0) }
{
    match cols.get(col as usize) {
        Some(value) => *value,
        None => 0,
    }
}

/// A sum of numbers that are not far from 0.
pub fn near_sum(value: i128, more: i64) -> i128
    requires near { unsigned_abs value ≤ 2 ^ 121 }
    ensures { result ≡ value +ℤ more }
{
    value + more as i128
}

/// A sum that is in range.
fn small_sum(sum: i128) -> Option<i128>
    ensures { result ≡ if_small sum }
{
    match in_range(sum) {
        Some(_) => Some(sum),
        None => None,
    }
}

/// A sum, if a step of this side may store it.
fn stored_sum(side: Side, value: i128, more: i64) -> Option<i128>
    requires near { unsigned_abs value ≤ 2 ^ 121 }
    ensures { result ≡ (if may_store side (value +ℤ more) then Some (value +ℤ more) else None) }
{
    match side {
        Side::Next => small_sum(near_sum(value, more)),
        Side::Undo => Some(near_sum(value, more)),
    }
}

/// The write that adds to a column of a row, if the row is there and the sum may be stored.
fn add_write<S: Store>(
    alloc: Global,
    s: &S,
    side: Side,
    key: &RowKey,
    col: u32,
    more: i64,
    writes: &[Write],
) -> Result<Option<Write>, StepError>
    requires order { IsInOrder (S.rows s.now) }
    requires narrow { All IsNarrow writes.now }
    requires within { AreWithin (2 ^ 121) (written writes.now (S.rows s.now)) }
    ensures value { IfOk result (λ w. Some w ≡ add_of side (place_at key.now) col more
        (columns_at (place_at key.now) (written writes.now (S.rows s.now)))) }
    ensures range { IsErrOf result StepError.Range → None
        ≡ add_of side (place_at key.now) col more (columns_at (place_at key.now) (written writes.now (S.rows s.now))) }
    ensures narrow { IfOk result (λ w. IfSome w IsNarrow) }
{
    match columns_now(s, writes, key.table, key.parts.as_slice()) {
        Some(cols) => match stored_sum(side, value_at(cols, col), more) {
            Some(sum) => Ok(Some(write_with(alloc, key, cols, col, sum)?)),
            None => Err(StepError::Range),
        },
        None => Ok(None),
    }
}

/// Adds to a column of a row, if the row is there and the sum may be stored.
fn add_to_column<S: Store>(
    alloc: Global,
    s: &S,
    side: Side,
    key: &RowKey,
    col: u32,
    more: i64,
    writes: &mut Vec<Write>,
) -> Result<(), StepError>
    requires order { IsInOrder (S.rows s.now) }
    requires narrow { All IsNarrow writes.old.items }
    requires within { AreWithin (2 ^ 121) (written writes.old.items (S.rows s.now)) }
    ensures rows { OnOk result (written writes.new.items (S.rows s.now)
        ≡ changed (ToAdd key.now col more) (written writes.old.items (S.rows s.now))) }
    ensures may { OnOk result (may_change side (ToAdd key.now col more) (written writes.old.items (S.rows s.now)) ≡ true) }
    ensures range { IsErrOf result StepError.Range → may_change side (ToAdd key.now col more) (written writes.old.items (S.rows s.now))
        ≡ false }
    ensures narrow { OnOk result (All IsNarrow writes.new.items) }
{
    let write = add_write(alloc, s, side, key, col, more, writes.as_slice())?;
    push_if(writes, write)?;
    Ok(())
}

/// Makes a change.
pub fn make_change<S: Store>(
    alloc: Global,
    s: &S,
    side: Side,
    change: &RowChange,
    writes: &mut Vec<Write>,
) -> Result<(), StepError>
    requires order { IsInOrder (S.rows s.now) }
    requires narrow { All IsNarrow writes.old.items }
    requires within { AreWithin (2 ^ 121) (written writes.old.items (S.rows s.now)) }
    ensures rows { OnOk result (written writes.new.items (S.rows s.now) ≡ changed change.now (written writes.old.items (S.rows s.now))) }
    ensures may { OnOk result (may_change side change.now (written writes.old.items (S.rows s.now)) ≡ true) }
    ensures range { IsErrOf result StepError.Range → may_change side change.now (written writes.old.items (S.rows s.now)) ≡ false }
    ensures narrow { OnOk result (All IsNarrow writes.new.items) }
{
    match change {
        RowChange::Put(key, columns) => Ok(put_row(alloc, key, columns.as_slice(), writes)?),
        RowChange::Drop(key) => Ok(drop_row(alloc, key, writes)?),
        RowChange::Set(key, col, value) => Ok(set_column(alloc, s, key, *col, *value, writes)?),
        RowChange::Add(key, col, more) => add_to_column(alloc, s, side, key, *col, *more, writes),
    }
}
