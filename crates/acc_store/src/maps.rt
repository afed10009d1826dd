//! Rows in an ordered map: look-ups and changes.
ghost use Rattle.std.specs.Prelude.{◌≡◌, ◌≤◌, ◌<◌, length, map, option_copied, OnOk, [], IfOk, IfSome};
ghost use Rattle.std.specs.Prelude.{◌++◌, find};
ghost use Rattle.std.specs.Prelude.{◌+◌};
ghost use Rattle.std.specs.List.{list_any};
ghost use Rattle.std.specs.BTreeMap.{is_at as at};
ghost use Rattle.acc_base.specs.Tables.{is_at, column_of};
ghost use Rattle.acc_store.specs.Rows.{live, cells_at as cells_there, column_in, columns_of, IsUp};
ghost use Rattle.acc_store.specs.Rows.{AreFit};
ghost use Rattle.acc_store.specs.Rows.{row_of as row_with, with_row};

use crate::entries::Entries;
use crate::places::Place;
use crate::runs::Run;
use crate::slots::Slot;
use acc_base::bounds::MOST_COLUMNS;
use acc_base::sequences::Seq;
use acc_base::tables::{Key, Row};
use std::alloc::{AllocError, Global};

/// The columns of the row at a place.
fn cells_of<'a>(entries: &'a Entries, place: &Place) -> Option<&'a [i128]>
    ensures value { option_copied result ≡ cells_there place.now entries.now.entries }
    ensures few { IfSome (option_copied result) (λ cols. length cols ≤ MOST_COLUMNS) }
{
    match entries.get(place) {
        Some(slot) => slot.cells(),
        None => None,
    }
}

/// The columns of the row at a key.
fn cells_at<'a>(entries: &'a Entries, table: u32, key: &[i64]) -> Option<&'a [i128]>
    requires fit { AreFit entries.now.entries }
    ensures value { option_copied result ≡ cells_there (table, key.now) entries.now.entries }
    ensures few { IfSome (option_copied result) (λ cols. length cols ≤ MOST_COLUMNS) }
{
    match Place::of(table, key) {
        Some(place) => cells_of(entries, &place),
        None => None,
    }
}

/// A column, which is 0 where there is none.
pub fn column(cells: Option<&[i128]>, col: u32) -> i128
    ensures { result ≡ column_in col (option_copied cells.entry) }
{
    match cells {
        Some(cells) => match cells.get(col as usize) {
            Some(value) => *value,
            None => 0,
        },
        None => 0,
    }
}

/// Whether there is a row at a key.
pub fn has_row(entries: &Entries, table: u32, key: &[i64]) -> bool
    requires fit { AreFit entries.now.entries }
    requires up { IsUp entries.now.entries }
    ensures { result ≡ list_any (is_at table key.now) (live entries.now.entries) }
{
    cells_at(entries, table, key).is_some()
}

/// A column of the row at a key.
pub fn column_at(entries: &Entries, table: u32, key: &[i64], col: u32) -> i128
    requires fit { AreFit entries.now.entries }
    requires up { IsUp entries.now.entries }
    ensures { result ≡ column_of (live entries.now.entries) table key.now col }
{
    column(cells_at(entries, table, key), col)
}

/// The columns of the row at a key.
pub fn columns_at<'a>(entries: &'a Entries, table: u32, key: &[i64]) -> Option<&'a [i128]>
    requires fit { AreFit entries.now.entries }
    requires up { IsUp entries.now.entries }
    ensures value { option_copied result ≡ columns_of (find (is_at table key.now) (live entries.now.entries)) }
    ensures few { IfSome (option_copied result) (λ cols. length cols ≤ MOST_COLUMNS) }
{
    cells_at(entries, table, key)
}

/// The row of these cells at a place.
fn row_of(alloc: Global, place: &Place, cells: &[i128]) -> Result<Row, AllocError>
    ensures { IfOk result (λ r. r ≡ row_with place.now cells.now) }
{
    let parts = Vec::from_slice(alloc, place.key())?;
    let cols = Vec::from_slice(alloc, cells)?;
    Ok(Row {
        table: place.table(),
        key: Key {
            parts: Seq::from_vec(parts),
        },
        cols: Seq::from_vec(cols),
    })
}

/// Adds the row of an entry, if it is not blank.
fn push_row(
    rows: &mut Vec<Row>,
    alloc: Global,
    place: &Place,
    slot: &Slot,
) -> Result<(), AllocError>
    ensures { OnOk result (rows.new.items ≡ rows.old.items ++ with_row place.now slot.now.cells []) }
{
    match slot.cells() {
        Some(cells) => {
            rows.push(row_of(alloc, place, cells)?)?;
            Ok(())
        }
        None => Ok(()),
    }
}

/// Adds the rows of a run.
fn push_rows(rows: &mut Vec<Row>, alloc: Global, run: &Run) -> Result<(), AllocError>
    ensures { OnOk result (rows.new.items ≡ rows.old.items ++ live run.now.entries) }
{
    for (place, slot) in run {
        push_row(rows, alloc, place, slot)?;
    }
    Ok(())
}

/// The rows, in order.
pub fn rows_of(entries: &Entries, alloc: Global) -> Result<Vec<Row>, AllocError>
    ensures { IfOk result (λ rows. rows.items ≡ live entries.now.entries) }
{
    let mut rows = Vec::new(alloc);
    for (_, run) in entries.runs() {
        push_rows(&mut rows, alloc, run)?;
    }
    Ok(rows)
}
