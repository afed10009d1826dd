//! Totals of a table's rows under the prefixes of one length, and what a batch of writes makes of them.
ghost use Rattle.std.specs.Prelude.{◌≡◌, ◌<◌, ◌+◌, length, take, true, OnOk, find, filter, option_map, unsigned_abs, ◌≤◌, pos};
ghost use Rattle.std.specs.Prelude.{slice_index_or};
ghost use Rattle.acc_base.specs.Tables.{is_at, cell, IsInOrder};
ghost use Rattle.acc_store.specs.Rows.{SumsFit};
ghost use Rattle.acc_index_store.specs.Totals.{counted, found, has_total, IsSame, KeepsRoom, Changes};
ghost use Rattle.acc_index_store.specs.Indexes.{row_named, has_room, HaveRoom, Moves, CanMove, AreTotals, AreNone, is_counted};
ghost use Rattle.acc_index_store.specs.Indexes.{before, behind};

use crate::prefixes::{Prefixes, is_named, place_of, prefix_of};
use crate::totals::{Totals, Way, count_at, forget_at, make_room_at};
use acc_base::bounds::LARGEST_SUM;
use acc_store::{MapStore, Store, Write};
use std::alloc::{AllocError, Global};

/// Totals under the prefixes of one length.
#[derive(Drop)]
pub struct Index {
    pub kept: Prefixes,
    pub totals: Totals,
}

/// A column, which is 0 where there is none.
fn value_in(columns: &[i128], col: u32) -> i128
    ensures { result ≡ slice_index_or columns.now col (pos 0) }
{
    match columns.get(col as usize) {
        Some(value) => *value,
        None => 0,
    }
}

/// A column of the row at a place, if there is one.
fn value_at(rows: &MapStore, table: u32, key: &[i64], col: u32) -> Option<i128>
    ensures { result ≡ option_map (cell col) (find (is_at table key.now) rows.now) }
{
    match rows.columns(table, key) {
        Some(columns) => Some(value_in(columns, col)),
        None => None,
    }
}

/// Counts a value, if there is one, under a prefix for which there is room.
fn count_value(totals: &mut Totals, prefix: &[i64], value: Option<i128>, way: Way)
    requires room { has_total totals.old.entries prefix.now ≡ true }
    requires fits { unsigned_abs (counted way value (found prefix.now totals.old.entries)).sum ≤ LARGEST_SUM }
    ensures counted { Changes (counted way value) prefix.now totals.old.entries totals.new.entries }
    ensures kept { KeepsRoom totals.old.entries totals.new.entries }
{
    if let Some(value) = value {
        count_at(totals, prefix, value, way);
    }
}

/// Counts the row at the place that a write names, if there is one.
fn count_row(kept: Prefixes, totals: &mut Totals, rows: &MapStore, write: &Write, way: Way)
    requires room { has_room kept totals.old.entries write.now ≡ true }
    requires fits { CanMove kept way (row_named write.now rows.now) totals.old.entries }
    ensures counted { Moves kept way (row_named write.now rows.now) totals.old.entries totals.new.entries }
    ensures kept { KeepsRoom totals.old.entries totals.new.entries }
{
    let (table, key) = place_of(write);
    if let Some(prefix) = prefix_of(kept, table, key) {
        count_value(totals, prefix, value_at(rows, table, key, kept.col), way);
    }
}

/// Counts the row that a write names, unless an earlier write of the batch names it too.
fn count_next(
    kept: Prefixes,
    totals: &mut Totals,
    rows: &MapStore,
    writes: &[Write],
    i: usize,
    way: Way,
)
    requires within { i < length writes.now }
    requires order { IsInOrder rows.now }
    requires sums { SumsFit rows.now }
    requires room { HaveRoom kept writes.now totals.old.entries }
    requires totals { AreTotals kept (filter (is_counted way writes.now (take i writes.now)) rows.now) totals.old.entries }
    ensures totals { AreTotals kept (filter (is_counted way writes.now (take (i + 1) writes.now)) rows.now) totals.new.entries }
    ensures kept { KeepsRoom totals.old.entries totals.new.entries }
{
    let write = &writes[i];
    if !is_named(&writes[..i], write) {
        count_row(kept, totals, rows, write, way);
    }
}

/// Counts each row that writes name, once. Of each write the earlier ones are gone through: a batch is what one step writes, at most
/// 16 rows.
pub fn count_rows(kept: Prefixes, totals: &mut Totals, rows: &MapStore, writes: &[Write], way: Way)
    requires order { IsInOrder rows.now }
    requires sums { SumsFit rows.now }
    requires room { HaveRoom kept writes.now totals.old.entries }
    requires totals { AreTotals kept (before way writes.now rows.now) totals.old.entries }
    ensures totals { AreTotals kept (behind way writes.now rows.now) totals.new.entries }
    ensures room { HaveRoom kept writes.now totals.new.entries }
{
    for i in 0..writes.len() {
        count_next(kept, totals, rows, writes, i, way);
    }
}

/// Makes room for what a write names.
fn make_room_for(
    kept: Prefixes,
    totals: &mut Totals,
    alloc: Global,
    write: &Write,
) -> Result<(), AllocError>
    ensures same { IsSame totals.old.entries totals.new.entries }
    ensures room { OnOk result (has_room kept totals.new.entries write.now ≡ true) }
    ensures kept { KeepsRoom totals.old.entries totals.new.entries }
{
    let (table, key) = place_of(write);
    match prefix_of(kept, table, key) {
        Some(prefix) => make_room_at(totals, alloc, prefix),
        None => Ok(()),
    }
}

/// Makes room for what writes name.
pub fn make_room(
    kept: Prefixes,
    totals: &mut Totals,
    alloc: Global,
    writes: &[Write],
) -> Result<(), AllocError>
    ensures same { IsSame totals.old.entries totals.new.entries }
    ensures room { OnOk result (HaveRoom kept writes.now totals.new.entries) }
{
    for write in writes {
        make_room_for(kept, totals, alloc, write)?;
    }
    Ok(())
}

/// Forgets the total of no row under the prefix of what a write names.
fn forget_for(kept: Prefixes, totals: &mut Totals, write: &Write)
    requires none { AreNone kept totals.old.entries }
    ensures same { IsSame totals.old.entries totals.new.entries }
{
    let (table, key) = place_of(write);
    if let Some(prefix) = prefix_of(kept, table, key) {
        forget_at(totals, prefix);
    }
}

/// Forgets the totals of no row under the prefixes of what writes name.
pub fn forget(kept: Prefixes, totals: &mut Totals, writes: &[Write])
    requires none { AreNone kept totals.old.entries }
    ensures same { IsSame totals.old.entries totals.new.entries }
{
    for write in writes {
        forget_for(kept, totals, write);
    }
}
