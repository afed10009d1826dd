//! A store that keeps totals.
ghost use Rattle.std.specs.Prelude.{◌≡◌, [], IfOk};

use crate::answers::{count_under, empty_indexes, sum_under};
use crate::asked::totals_asked;
use crate::batches::apply_writes;
use crate::indexes::Index;
use crate::prefixes::Prefixes;
use acc_base::designs::Design;
use acc_base::tables::Plain;
use acc_store::{MapStore, Store, StoreError, Write};
use std::alloc::Global;
use std::marker::Model;

/// Rows in an ordered map, with totals under the prefixes of the lengths that it is made for: `count` and `sum` under those take
/// time in the logarithm of the number of prefixes, and under others they walk the rows.
#[derive(Drop)]
pub struct IndexStore {
    alloc: Global,
    rows: MapStore,
    indexes: Vec<Index>,
}

impl Model for IndexStore {
    ghost use Rattle.std.specs.Prelude.{List};
    ghost use Rattle.acc_base.specs.declared.tables.Row.{Row};
    ghost use Rattle.acc_base.specs.Tables.{IsInOrder};
    ghost use Rattle.acc_store.specs.Rows.{SumsFit};
    ghost use Rattle.acc_index_store.specs.Indexes.{AreIndexes};

    ghost Value = { List Row };

    ghost view = { λ s. s.rows };

    ghost invariant = { λ s. IsInOrder s.rows × SumsFit s.rows × AreIndexes s.rows s.indexes.items };
}

impl IndexStore {
    /// A store without rows that keeps no totals. It takes no memory.
    pub fn new(alloc: Global) -> Self
        ensures { result ≡ [] }
    {
        IndexStore {
            alloc,
            rows: MapStore::compact(alloc),
            indexes: Vec::new(alloc),
        }
    }

    /// A store without rows that keeps these totals.
    pub fn keeping(alloc: Global, kept: &[Prefixes]) -> Result<Self, StoreError>
        ensures { IfOk result (λ s. s ≡ []) }
    {
        Ok(IndexStore {
            alloc,
            rows: MapStore::compact(alloc),
            indexes: empty_indexes(alloc, kept)?,
        })
    }

    /// A store without rows that keeps the totals that a design's steps read.
    pub fn of(alloc: Global, design: &Design) -> Result<Self, StoreError>
        ensures { IfOk result (λ s. s ≡ []) }
    {
        let kept = totals_asked(alloc, design)?;
        IndexStore::keeping(alloc, kept.as_slice())
    }
}

impl Store for IndexStore {
    ghost rows = { λ s. s };

    fn has(&self, table: u32, key: &[i64]) -> bool {
        self.rows.has(table, key)
    }

    fn get(&self, table: u32, key: &[i64], col: u32) -> i128 {
        self.rows.get(table, key, col)
    }

    fn columns<'a>(&'a self, table: u32, key: &[i64]) -> Option<&'a [i128]> {
        self.rows.columns(table, key)
    }

    fn count(&self, table: u32, prefix: &[i64]) -> u64 {
        count_under(&self.indexes, &self.rows, table, prefix)
    }

    fn sum(&self, table: u32, prefix: &[i64], col: u32) -> i128 {
        sum_under(&self.indexes, &self.rows, table, prefix, col)
    }

    fn least(&self, table: u32, prefix: &[i64]) -> i64 {
        self.rows.least(table, prefix)
    }

    fn greatest(&self, table: u32, prefix: &[i64]) -> i64 {
        self.rows.greatest(table, prefix)
    }

    fn apply(&mut self, writes: &[Write]) -> Result<(), StoreError> {
        apply_writes(&mut self.rows, &mut self.indexes, self.alloc, writes)
    }

    fn rows(&self, alloc: Global) -> Result<Plain, StoreError> {
        self.rows.rows(alloc)
    }
}
