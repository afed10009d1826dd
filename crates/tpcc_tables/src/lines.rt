//! How many lines each order has, counted in one pass over the rows.
ghost use Rattle.std.specs.Prelude.{◌≡◌, ◌<◌, ◌+◌, ◌^◌, List, [], ◌∷◌, ℤ, length, cond, if◌then◌else◌, ◌==◌, IfOk, OnOk};
ghost use Rattle.tpcc_tables.specs.Conditions.{part as part_of, order_key, is_line_of};
ghost use Rattle.tpcc_tables.specs.Lines.{lines_in, CountsLines};

use acc_base::tables::Row;
use std::alloc::{AllocError, Global};
use std::collections::BTreeMap;

/// How many lines each order has, by its warehouse, its district and its number.
pub type LineCounts = BTreeMap<[i64; 3], u64>;

/// A part of a key, which is 0 where the key is shorter.
fn part(key: &[i64], at: usize) -> i64
    ensures { result ≡ part_of at key.now }
{
    match key.get(at) {
        Some(part) => *part,
        None => 0,
    }
}

/// The key of the order of a line: its warehouse, its district and its number.
pub fn order_of(key: &[i64]) -> [i64; 3]
    ensures { result ≡ order_key key.now }
{
    [part(key, 0), part(key, 1), part(key, 3)]
}

/// How many lines a map has at the key of an order.
fn count_at(counts: &LineCounts, order: &[i64; 3]) -> u64
    ensures { result ≡ lines_in counts.now order.now }
{
    counts.get(order).copied().unwrap_or(0)
}

/// Counts a row with its order, where it is a line.
fn count_row(counts: &mut LineCounts, line: u32, row: &Row) -> Result<(), AllocError>
    requires { lines_in counts.old (order_key row.now.key.parts) < 2 ^ 63 }
    ensures { OnOk result ((k : List ℤ) → lines_in counts.new k ≡ lines_in counts.old k + cond (is_line_of line k row.now) 1 0) }
{
    if row.table != line {
        return Ok(());
    }
    let order = order_of(row.key.parts.as_slice());
    let count = count_at(counts, &order);
    counts.insert(order, count + 1)?;
    Ok(())
}

/// How many lines each order has.
pub fn count_lines(alloc: Global, rows: &[Row], line: u32) -> Result<LineCounts, AllocError>
    ensures { IfOk result (CountsLines line rows.now) }
{
    let mut counts = BTreeMap::new(alloc);
    for row in rows {
        count_row(&mut counts, line, row)?;
    }
    Ok(counts)
}

/// The first three parts of a key.
fn front_of(key: &[i64]) -> [i64; 3]
    ensures { result ≡ part_of 0 key.now ∷ part_of 1 key.now ∷ part_of 2 key.now ∷ [] }
{
    [part(key, 0), part(key, 1), part(key, 2)]
}

/// How many lines the order with a key has.
pub fn lines_of(counts: &LineCounts, key: &[i64]) -> u64
    ensures { result ≡ (if length key.now == 3 then lines_in counts.now key.now else 0) }
{
    if key.len() == 3 {
        count_at(counts, &front_of(key))
    } else {
        0
    }
}
