//! Totals of rows whose keys begin alike, by what they begin with.
ghost use Rattle.std.specs.Prelude.{◌≡◌, ◌≤◌, ◌+ℤ◌, ◌-ℤ◌, unsigned_abs, pos, true, false, IfOk, OnOk};
ghost use Rattle.std.specs.Prelude.{IfSome, option_copied};
ghost use Rattle.acc_index_store.specs.Totals.{more, fewer, with_row, without_row, counted, is_blank_in, entry, found, has_total};
ghost use Rattle.acc_index_store.specs.Totals.{IsSame, KeepsRoom, Changes};

use acc_base::bounds::LARGEST_SUM;
use std::alloc::{AllocError, Global};
use std::collections::BTreeMap;

/// The number of rows that 64 bits can't tell from a greater one.
pub const UNCOUNTED: u64 = u64::MAX;

/// How many rows there are, and what a column of theirs adds up to.
#[derive(Clone, Copy)]
pub struct Total {
    /// Their number, or 2^64 - 1 where it isn't known.
    pub rows: u64,
    pub sum: i128,
}

/// Totals, by what keys begin with.
pub type Totals = BTreeMap<Vec<i64>, Total>;

/// Whether a row comes into a total or goes out of it.
#[derive(Clone, Copy)]
pub enum Way {
    In,
    Out,
}

/// One more.
fn one_more(rows: u64) -> u64
    ensures { result ≡ more rows }
{
    rows.saturating_add(1)
}

/// One less, where the number is known.
fn one_less(rows: u64) -> u64
    ensures { result ≡ fewer rows }
{
    if rows == UNCOUNTED {
        rows
    } else {
        rows.saturating_sub(1)
    }
}

/// The total with a row of this value more.
fn with(total: Total, value: i128) -> Total
    requires fits { unsigned_abs (total.sum +ℤ value) ≤ LARGEST_SUM }
    ensures { result ≡ with_row (Some value) total }
{
    Total {
        rows: one_more(total.rows),
        sum: total.sum + value,
    }
}

/// The total with a row of this value less.
fn without(total: Total, value: i128) -> Total
    requires fits { unsigned_abs (total.sum -ℤ value) ≤ LARGEST_SUM }
    ensures { result ≡ without_row (Some value) total }
{
    Total {
        rows: one_less(total.rows),
        sum: total.sum - value,
    }
}

/// The total once a row of this value came or went.
fn count(total: Total, value: i128, way: Way) -> Total
    requires fits { unsigned_abs (counted way (Some value) total).sum ≤ LARGEST_SUM }
    ensures { result ≡ counted way (Some value) total }
{
    match way {
        Way::In => with(total, value),
        Way::Out => without(total, value),
    }
}

/// The total under a prefix, if there is one.
pub fn total_at(totals: &Totals, prefix: &[i64]) -> Option<Total>
    ensures { result ≡ entry prefix.now totals.now.entries }
{
    totals.get(prefix).copied()
}

/// Makes a total of no row under a prefix that has none.
fn make_blank(totals: &mut Totals, alloc: Global, prefix: &[i64]) -> Result<(), AllocError>
    requires absent { has_total totals.old.entries prefix.now ≡ false }
    ensures same { IsSame totals.old.entries totals.new.entries }
    ensures room { OnOk result (has_total totals.new.entries prefix.now ≡ true) }
    ensures kept { KeepsRoom totals.old.entries totals.new.entries }
{
    let key = Vec::from_slice(alloc, prefix)?;
    totals.insert(key, Total { rows: 0, sum: 0 })?;
    Ok(())
}

/// Makes room for the total under a prefix.
pub fn make_room_at(totals: &mut Totals, alloc: Global, prefix: &[i64]) -> Result<(), AllocError>
    ensures same { IsSame totals.old.entries totals.new.entries }
    ensures room { OnOk result (has_total totals.new.entries prefix.now ≡ true) }
    ensures kept { KeepsRoom totals.old.entries totals.new.entries }
{
    if totals.contains_key(prefix) {
        Ok(())
    } else {
        make_blank(totals, alloc, prefix)
    }
}

/// Counts a row of this value under a prefix, for which there is room.
pub fn count_at(totals: &mut Totals, prefix: &[i64], value: i128, way: Way)
    requires room { has_total totals.old.entries prefix.now ≡ true }
    requires fits { unsigned_abs (counted way (Some value) (found prefix.now totals.old.entries)).sum ≤ LARGEST_SUM }
    ensures counted { Changes (counted way (Some value)) prefix.now totals.old.entries totals.new.entries }
    ensures kept { KeepsRoom totals.old.entries totals.new.entries }
{
    if let Some(total) = totals.get_mut(prefix) {
        *total = count(*total, value, way);
    }
}

/// Whether there is a total of no row under a prefix.
fn is_blank(totals: &Totals, prefix: &[i64]) -> bool
    ensures { result ≡ is_blank_in (entry prefix.now totals.now.entries) }
{
    match totals.get(prefix) {
        Some(total) => total.rows == 0,
        None => false,
    }
}

/// Forgets the total under a prefix, if it is of no row.
pub fn forget_at(totals: &mut Totals, prefix: &[i64])
    requires none { (found prefix.now totals.old.entries).rows ≡ 0 → (found prefix.now totals.old.entries).sum ≡ pos 0 }
    ensures same { IsSame totals.old.entries totals.new.entries }
{
    if is_blank(totals, prefix) {
        totals.remove(prefix);
    }
}
