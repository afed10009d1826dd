//! Sums over the rows of an ordered map below a key: how many there are, what a column adds up to, the least and greatest part of a key.
ghost use Rattle.std.specs.Prelude.{◌≡◌, ◌≤◌, ◌<◌, ◌^◌, length, map, pos};
ghost use Rattle.std.specs.Prelude.{◌+◌, ◌+ℤ◌, unsigned_abs};
ghost use Rattle.std.specs.List.{sum_by};
ghost use Rattle.std.specs.Int.{int_min, int_max};
ghost use Rattle.acc_base.specs.Numbers.{total};
ghost use Rattle.acc_base.specs.Tables.{count_of, sum_of, least_of, greatest_of, parts_at, cell};
ghost use Rattle.acc_base.specs.Tables.{best};
ghost use Rattle.acc_store.specs.Rows.{live, column_in, one_in, part_in, IsRising, SumsFit, IsUp};
ghost use Rattle.acc_store.specs.Rows.{AreFit, entries_below};
ghost use Rattle.acc_store.specs.Runs.{left, left_behind, IsForward};

use crate::entries::Entries;
use crate::maps::column;
use crate::places::Place;
use crate::runs::runs_between;
use crate::slots::Slot;
use crate::walks::Walk;
use acc_base::bounds::{LARGEST_SUM, MOST_KEY_PARTS};

/// The entries whose keys begin with a prefix.
fn entries_below<'a>(entries: &'a Entries, table: u32, prefix: &[i64]) -> Walk<'a>
    requires short { length prefix.now ≤ MOST_KEY_PARTS }
    requires fit { AreFit entries.now.entries }
    ensures below { left result ≡ entries_below table prefix.now entries.now.entries }
    ensures behind { left_behind result ≡ entries_below table prefix.now entries.now.entries }
    ensures forward { IsForward result }
    ensures few { length (left result) < 2 ^ 64 }
{
    let start = Place::new(table, prefix);
    let last = Place::last(table, prefix);
    Walk {
        runs: runs_between(entries.runs(), &start, &last),
        start,
        last,
        open: None,
    }
}

/// How many rows an entry is.
fn rows_in(slot: &Slot) -> u64
    ensures { result ≡ one_in slot.now.cells }
{
    match slot.cells() {
        Some(_) => 1,
        None => 0,
    }
}

/// How many of the entries are rows.
fn count_live(entries: Walk<'_>) -> u64
    requires forward { IsForward entries }
    requires few { length (left entries) < 2 ^ 64 }
    ensures { result ≡ length (live (left entries.entry)) }
{
    let mut count = 0;
    let mut rest = entries;
    while let Some((_, slot)) = rest.next() {
        count += rows_in(slot);
    }
    count
}

/// A column of an entry.
fn value(slot: &Slot, col: u32) -> i128
    ensures { result ≡ column_in col slot.now.cells }
{
    column(slot.cells(), col)
}

/// A sum, which fits.
fn plus(a: i128, b: i128) -> i128
    requires fits { unsigned_abs a + unsigned_abs b ≤ LARGEST_SUM }
    ensures value { result ≡ a +ℤ b }
    ensures bound { unsigned_abs result ≤ unsigned_abs a + unsigned_abs b }
{
    a + b
}

/// The sum of a column over the entries.
fn sum_live(entries: Walk<'_>, col: u32) -> i128
    requires forward { IsForward entries }
    requires fits { sum_by (λ r. unsigned_abs (cell col r)) (live (left entries)) ≤ LARGEST_SUM }
    ensures { result ≡ total (map (cell col) (live (left entries.entry))) }
{
    let mut sum = 0;
    let mut rest = entries;
    while let Some((_, slot)) = rest.next() {
        sum = plus(sum, value(slot, col));
    }
    sum
}

/// The part at a place of the key of an entry that is no blank.
fn part_at(place: &Place, slot: &Slot, at: usize) -> Option<i64>
    ensures { result ≡ part_in at place.now slot.now.cells }
{
    match slot.cells() {
        Some(_) => place.key().get(at).copied(),
        None => None,
    }
}

/// The least part at a place, where they rise.
fn least_live(entries: Walk<'_>, at: usize) -> i64
    requires forward { IsForward entries }
    requires rising { IsRising (parts_at at (live (left entries))) }
    ensures { result ≡ best int_min (parts_at at (live (left entries.entry))) }
{
    let mut rest = entries;
    while let Some((place, slot)) = rest.next() {
        if let Some(part) = part_at(place, slot, at) {
            return part;
        }
    }
    0
}

/// The greatest part at a place, where they rise.
fn greatest_live(entries: Walk<'_>, at: usize) -> i64
    requires forward { IsForward entries }
    requires rising { IsRising (parts_at at (live (left_behind entries))) }
    ensures { result ≡ best int_max (parts_at at (live (left_behind entries.entry))) }
{
    let mut rest = entries;
    while let Some((place, slot)) = rest.next_back() {
        if let Some(part) = part_at(place, slot, at) {
            return part;
        }
    }
    0
}

/// How many rows have keys that begin with a prefix of at most 6 parts.
fn count_below(entries: &Entries, table: u32, prefix: &[i64]) -> u64
    requires short { length prefix.now ≤ MOST_KEY_PARTS }
    requires fit { AreFit entries.now.entries }
    ensures { pos result ≡ count_of (live entries.now.entries) table prefix.now }
{
    count_live(entries_below(entries, table, prefix))
}

/// How many rows have keys that begin with the prefix.
pub fn count_under(entries: &Entries, table: u32, prefix: &[i64]) -> u64
    requires fit { AreFit entries.now.entries }
    ensures { pos result ≡ count_of (live entries.now.entries) table prefix.now }
{
    if prefix.len() <= MOST_KEY_PARTS {
        count_below(entries, table, prefix)
    } else {
        0
    }
}

/// The sum of a column over the rows whose keys begin with a prefix of at most 6 parts.
fn sum_below(entries: &Entries, table: u32, prefix: &[i64], col: u32) -> i128
    requires short { length prefix.now ≤ MOST_KEY_PARTS }
    requires fit { AreFit entries.now.entries }
    requires sums { SumsFit (live entries.now.entries) }
    ensures { result ≡ sum_of (live entries.now.entries) table prefix.now col }
{
    sum_live(entries_below(entries, table, prefix), col)
}

/// The sum of a column over these rows.
pub fn sum_under(entries: &Entries, table: u32, prefix: &[i64], col: u32) -> i128
    requires fit { AreFit entries.now.entries }
    requires sums { SumsFit (live entries.now.entries) }
    ensures { result ≡ sum_of (live entries.now.entries) table prefix.now col }
{
    if prefix.len() <= MOST_KEY_PARTS {
        sum_below(entries, table, prefix, col)
    } else {
        0
    }
}

/// The least part after a prefix of at most 6 parts, and 0 where there is none.
fn least_below(entries: &Entries, table: u32, prefix: &[i64]) -> i64
    requires short { length prefix.now ≤ MOST_KEY_PARTS }
    requires fit { AreFit entries.now.entries }
    requires up { IsUp entries.now.entries }
    ensures { result ≡ least_of (live entries.now.entries) table prefix.now }
{
    least_live(entries_below(entries, table, prefix), prefix.len())
}

/// The least part after the prefix, and 0 where there is none.
pub fn least_under(entries: &Entries, table: u32, prefix: &[i64]) -> i64
    requires fit { AreFit entries.now.entries }
    requires up { IsUp entries.now.entries }
    ensures { result ≡ least_of (live entries.now.entries) table prefix.now }
{
    if prefix.len() <= MOST_KEY_PARTS {
        least_below(entries, table, prefix)
    } else {
        0
    }
}

/// The greatest part after a prefix of at most 6 parts, and 0 where there is none.
fn greatest_below(entries: &Entries, table: u32, prefix: &[i64]) -> i64
    requires short { length prefix.now ≤ MOST_KEY_PARTS }
    requires fit { AreFit entries.now.entries }
    requires up { IsUp entries.now.entries }
    ensures { result ≡ greatest_of (live entries.now.entries) table prefix.now }
{
    greatest_live(entries_below(entries, table, prefix), prefix.len())
}

/// The greatest part after the prefix, and 0 where there is none.
pub fn greatest_under(entries: &Entries, table: u32, prefix: &[i64]) -> i64
    requires fit { AreFit entries.now.entries }
    requires up { IsUp entries.now.entries }
    ensures { result ≡ greatest_of (live entries.now.entries) table prefix.now }
{
    if prefix.len() <= MOST_KEY_PARTS {
        greatest_below(entries, table, prefix)
    } else {
        0
    }
}
