//! What indexes answer.
ghost use Rattle.std.specs.Prelude.{◌≡◌, ◌&&◌, ◌==◌, length, pos, IfOk, map};
ghost use Rattle.std.specs.Prelude.{[]};
ghost use Rattle.acc_base.specs.Tables.{count_of, sum_of};
ghost use Rattle.acc_index_store.specs.Totals.{found};
ghost use Rattle.acc_index_store.specs.Indexes.{AreIndexes, known_number, number_in, sum_in};

use crate::indexes::Index;
use crate::prefixes::Prefixes;
use crate::totals::{Total, Totals, UNCOUNTED, total_at};
use acc_store::{MapStore, Store};
use std::alloc::{AllocError, Global};
use std::collections::BTreeMap;

/// The total under a prefix.
fn total_under(totals: &Totals, prefix: &[i64]) -> Total
    ensures { result ≡ found prefix.now totals.now.entries }
{
    match total_at(totals, prefix) {
        Some(total) => total,
        None => Total { rows: 0, sum: 0 },
    }
}

/// The number of rows of a total, where it is known.
fn known(total: Total) -> Option<u64>
    ensures { result ≡ known_number total }
{
    if total.rows == UNCOUNTED {
        None
    } else {
        Some(total.rows)
    }
}

/// Whether an index keeps totals under prefixes of so many parts.
fn keeps(kept: Prefixes, table: u32, parts: usize) -> bool
    ensures { result ≡ ((kept.table == table) && (kept.parts == parts)) }
{
    kept.table == table && kept.parts == parts
}

/// The number of rows under a prefix, if the index knows it.
fn count_in(index: &Index, table: u32, prefix: &[i64]) -> Option<u64>
    ensures { result ≡ number_in index.now table prefix.now }
{
    if keeps(index.kept, table, prefix.len()) {
        known(total_under(&index.totals, prefix))
    } else {
        None
    }
}

/// What a column of the rows under a prefix adds up to, if the index knows it.
fn sum_in(index: &Index, table: u32, prefix: &[i64], col: u32) -> Option<i128>
    ensures { result ≡ sum_in index.now table prefix.now col }
{
    if keeps(index.kept, table, prefix.len()) && index.kept.col == col {
        Some(total_under(&index.totals, prefix).sum)
    } else {
        None
    }
}

/// The number of rows under a prefix: by an index, or else by walking the rows.
pub fn count_under(indexes: &[Index], rows: &MapStore, table: u32, prefix: &[i64]) -> u64
    requires totals { AreIndexes rows.now indexes.now }
    ensures { pos result ≡ count_of rows.now table prefix.now }
{
    for index in indexes {
        if let Some(count) = count_in(index, table, prefix) {
            return count;
        }
    }
    rows.count(table, prefix)
}

/// What a column of the rows under a prefix adds up to: by an index, or else by walking the rows.
pub fn sum_under(indexes: &[Index], rows: &MapStore, table: u32, prefix: &[i64], col: u32) -> i128
    requires totals { AreIndexes rows.now indexes.now }
    ensures { result ≡ sum_of rows.now table prefix.now col }
{
    for index in indexes {
        if let Some(sum) = sum_in(index, table, prefix, col) {
            return sum;
        }
    }
    rows.sum(table, prefix, col)
}

/// Indexes of no rows.
pub fn empty_indexes(alloc: Global, kept: &[Prefixes]) -> Result<Vec<Index>, AllocError>
    ensures kept { IfOk result (λ v. map (λ x. x.kept) v.items ≡ kept.now) }
    ensures totals { IfOk result (λ v. AreIndexes [] v.items) }
{
    let mut indexes = Vec::new(alloc);
    for prefixes in kept {
        indexes.push(Index {
            kept: *prefixes,
            totals: BTreeMap::new(alloc),
        })?;
    }
    Ok(indexes)
}
