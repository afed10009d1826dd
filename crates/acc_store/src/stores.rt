//! Rows that are kept in some way.
ghost use Rattle.std.specs.Prelude.{◌≡◌, ◌≤◌, length, OnOk, OnErr, pos, [], All, IfOk, IfSome, find, option_copied};
ghost use Rattle.std.specs.List.{list_any};
ghost use Rattle.acc_base.specs.Tables.{is_at, column_of, count_of, sum_of, least_of, greatest_of};
ghost use Rattle.acc_store.specs.Rows.{columns_of, written, IsNarrow, SumsFit};

use crate::changes::apply_writes;
use crate::entries::Entries;
use crate::maps::{column_at, columns_at, has_row, rows_of};
use crate::runs::Layout;
use crate::sums::{count_under, greatest_under, least_under, sum_under};
use crate::writes::Write;
use acc_base::bounds::MOST_COLUMNS;
use acc_base::sequences::Seq;
use acc_base::tables::Plain;
use std::alloc::{AllocError, Global};
use std::marker::Model;

/// Why a store can't do what it was asked.
#[derive(Clone, Copy)]
pub enum StoreError {
    /// Memory ran out; the rows are as before.
    Memory,
}

impl From<AllocError> for StoreError {
    fn from(_: AllocError) -> Self {
        StoreError::Memory
    }
}

/// Rows, however they are kept. Contracts see them as a list, in the order of tables and keys.
///
/// A row has at most 6 key parts and 12 columns. Look-ups take a key or prefix of any length, and no memory.
pub trait Store {
    ghost use Rattle.std.specs.Prelude.{List};
    ghost use Rattle.acc_base.specs.declared.tables.Row.{Row};

    /// The rows, in order.
    ghost rows: { Self → List Row };

    /// Whether there is a row of the table with this key.
    fn has(&self, table: u32, key: &[i64]) -> bool
        ensures { result ≡ list_any (is_at table key.now) (rows self.now) };

    /// A column of the row with this key, counted from 0. It is 0 where the row or the column is absent.
    fn get(&self, table: u32, key: &[i64], col: u32) -> i128
        ensures { result ≡ column_of (rows self.now) table key.now col };

    /// The columns of the row with this key, if there is one.
    fn columns<'a>(&'a self, table: u32, key: &[i64]) -> Option<&'a [i128]>
        ensures value { option_copied result ≡ columns_of (find (is_at table key.now) (rows self.now)) }
        ensures few { IfSome (option_copied result) (λ cols. length cols ≤ MOST_COLUMNS) };

    /// How many rows of the table have keys that begin with the prefix.
    fn count(&self, table: u32, prefix: &[i64]) -> u64
        ensures { pos result ≡ count_of (rows self.now) table prefix.now };

    /// The sum of a column over these rows.
    fn sum(&self, table: u32, prefix: &[i64], col: u32) -> i128
        ensures { result ≡ sum_of (rows self.now) table prefix.now col };

    /// The least part that follows the prefix in their keys. It is 0 where there is none.
    fn least(&self, table: u32, prefix: &[i64]) -> i64
        ensures { result ≡ least_of (rows self.now) table prefix.now };

    /// The greatest part that follows the prefix in their keys. It is 0 where there is none.
    fn greatest(&self, table: u32, prefix: &[i64]) -> i64
        ensures { result ≡ greatest_of (rows self.now) table prefix.now };

    /// Does all writes, one after the other, or none where memory runs out.
    ///
    /// Afterwards the absolute values of each column of each table have to add up to at most 2^120. A row that is put has at most
    /// 6 key parts and 12 columns.
    fn apply(&mut self, writes: &[Write]) -> Result<(), StoreError>
        requires narrow { All IsNarrow writes.now }
        requires sums { SumsFit (written writes.now (rows self.old)) }
        ensures ok { OnOk result (rows self.new ≡ written writes.now (rows self.old)) }
        ensures err { OnErr result (rows self.new ≡ rows self.old) };

    /// The rows, by table and then key.
    fn rows(&self, alloc: Global) -> Result<Plain, StoreError>
        ensures { IfOk result (λ plain. plain.rows ≡ rows self.now) };
}

/// Rows in an ordered map. A look-up takes time in the logarithm of the number of rows; `count` and `sum` walk the rows of the prefix.
#[derive(Drop)]
pub struct MapStore {
    alloc: Global,
    entries: Entries,
}

impl Model for MapStore {
    ghost use Rattle.std.specs.Prelude.{List};
    ghost use Rattle.acc_base.specs.declared.tables.Row.{Row};
    ghost use Rattle.acc_store.specs.Rows.{live, IsUp, AreFit, HasNoBlank, SumsFit};

    ghost Value = { List Row };

    ghost view = { λ s. live s.entries.entries };

    ghost invariant = { λ s. let es = s.entries.entries in IsUp es × AreFit es × HasNoBlank es × SumsFit (live es) };
}

impl MapStore {
    /// A store without rows.
    fn laid(alloc: Global, layout: Layout) -> Self
        ensures { result ≡ [] }
    {
        MapStore {
            alloc,
            entries: Entries::new(alloc, layout),
        }
    }

    /// A store without rows, made for speed.
    pub fn new(alloc: Global) -> Self
        ensures { result ≡ [] }
    {
        MapStore::laid(alloc, Layout::Whole)
    }

    /// A store without rows, made for little memory: where keys come in ascending order a row takes two thirds of what it takes else.
    pub fn compact(alloc: Global) -> Self
        ensures { result ≡ [] }
    {
        MapStore::laid(alloc, Layout::Parted)
    }
}

impl Store for MapStore {
    ghost rows = { λ s. s };

    fn has(&self, table: u32, key: &[i64]) -> bool {
        has_row(&self.entries, table, key)
    }

    fn get(&self, table: u32, key: &[i64], col: u32) -> i128 {
        column_at(&self.entries, table, key, col)
    }

    fn columns<'a>(&'a self, table: u32, key: &[i64]) -> Option<&'a [i128]> {
        columns_at(&self.entries, table, key)
    }

    fn count(&self, table: u32, prefix: &[i64]) -> u64 {
        count_under(&self.entries, table, prefix)
    }

    fn sum(&self, table: u32, prefix: &[i64], col: u32) -> i128 {
        sum_under(&self.entries, table, prefix, col)
    }

    fn least(&self, table: u32, prefix: &[i64]) -> i64 {
        least_under(&self.entries, table, prefix)
    }

    fn greatest(&self, table: u32, prefix: &[i64]) -> i64 {
        greatest_under(&self.entries, table, prefix)
    }

    fn apply(&mut self, writes: &[Write]) -> Result<(), StoreError> {
        apply_writes(&mut self.entries, self.alloc, writes)?;
        Ok(())
    }

    fn rows(&self, alloc: Global) -> Result<Plain, StoreError> {
        Ok(Plain {
            rows: Seq::from_vec(rows_of(&self.entries, alloc)?),
        })
    }
}
