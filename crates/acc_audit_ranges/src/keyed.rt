//! A store that knows the keys of its rows.
ghost use Rattle.std.specs.Prelude.{◌≡◌, [], OnOk, nat_le};
ghost use Rattle.acc_audit_ranges.specs.Ranges.{Adds, parts_have};
ghost use Rattle.acc_audit_ranges.specs.Keyed.{shows, still};
ghost use Rattle.acc_audit_ranges.specs.Parts.{number};

use crate::noted::{Noted, forget_all, note_all, nothing, places_named};
use crate::parts::Values;
use crate::values::add;
use acc_base::tables::Plain;
use acc_store::{Store, StoreError, Write};
use std::alloc::{AllocError, Global};
use std::collections::BTreeSet;
use std::marker::Model;

/// Rows in a store, and the places where they stand, with how many of these have which value. What the components of a table's keys are
/// can be asked of it, in time that grows with how many different ones there are.
#[derive(Drop)]
pub struct KeyedStore<S: Store> {
    alloc: Global,
    rows: S,
    noted: Noted,
    /// Whether what is noted is where rows stand; where memory ran out it may be more.
    whole: bool,
}

impl<S: Store> Model for KeyedStore<S> {
    ghost use Rattle.std.specs.Prelude.{List, ◌≡◌, true};
    ghost use Rattle.acc_base.specs.declared.tables.Row.{Row};
    ghost use Rattle.acc_audit_ranges.specs.Keyed.{Covers, IsExact};

    ghost Value = { List Row };

    ghost view = { λ s. S.rows s.rows };

    ghost invariant = { λ s. Covers s.noted.places (S.rows s.rows) × (s.whole ≡ true → IsExact s.noted (S.rows s.rows)) };
}

/// Adds a value that some keys have.
fn add_counted(values: &mut BTreeSet<i64>, x: i64, n: u64) -> Result<(), AllocError>
    ensures { OnOk result (Adds (λ q. shows q (x, n)) values.old values.new) }
{
    if n > 0 { add(values, x) } else { Ok(()) }
}

/// Adds the values that keys have.
fn add_values(values: &mut BTreeSet<i64>, counted: &Values) -> Result<(), AllocError>
    ensures { OnOk result (Adds (λ q. nat_le 1 (number counted.now q)) values.old values.new) }
{
    for (x, n) in counted.iter() {
        add_counted(values, *x, *n)?;
    }
    Ok(())
}

/// Whether what is noted was right, and what was forgotten of it didn't fail.
fn still(whole: bool, settled: Result<(), AllocError>) -> bool
    ensures { result ≡ still whole settled }
{
    match settled {
        Ok(()) => whole,
        Err(_) => false,
    }
}

impl<S: Store> KeyedStore<S> {
    /// An empty store, of which the places are noted from here on.
    pub fn new(alloc: Global, rows: S) -> Self
        requires empty { S.rows rows ≡ [] }
        ensures { result ≡ [] }
    {
        KeyedStore {
            alloc,
            rows,
            noted: nothing(alloc),
            whole: true,
        }
    }

    /// Adds the component at a place, from 0, of each key of a table's rows.
    ///
    /// It fails for want of memory, and where memory ran out as rows were written.
    pub fn add_parts(
        &self,
        table: u32,
        place: usize,
        values: &mut BTreeSet<i64>,
    ) -> Result<(), AllocError>
        ensures { OnOk result (Adds (parts_have self.now table place) values.old values.new) }
    {
        if !self.whole {
            return Err(AllocError);
        }
        match self.noted.parts.get(&(table, place)) {
            Some(counted) => add_values(values, counted),
            None => Ok(()),
        }
    }
}

impl<S: Store> Store for KeyedStore<S> {
    ghost rows = { λ s. s };

    fn has(&self, table: u32, key: &[i64]) -> bool {
        self.rows.has(table, key)
    }

    fn get(&self, table: u32, key: &[i64], col: u32) -> i128 {
        self.rows.get(table, key, col)
    }

    fn columns<'a>(&'a self, table: u32, key: &[i64]) -> Option<&'a [i128]> {
        self.rows.columns(table, key)
    }

    fn count(&self, table: u32, prefix: &[i64]) -> u64 {
        self.rows.count(table, prefix)
    }

    fn sum(&self, table: u32, prefix: &[i64], col: u32) -> i128 {
        self.rows.sum(table, prefix, col)
    }

    fn least(&self, table: u32, prefix: &[i64]) -> i64 {
        self.rows.least(table, prefix)
    }

    fn greatest(&self, table: u32, prefix: &[i64]) -> i64 {
        self.rows.greatest(table, prefix)
    }

    fn apply(&mut self, writes: &[Write]) -> Result<(), StoreError> {
        let places = places_named(self.alloc, writes)?;
        let whole = self.whole;
        self.whole = false;
        note_all(&mut self.noted, self.alloc, writes)?;
        self.rows.apply(writes)?;
        let settled = forget_all(&mut self.noted, self.alloc, &self.rows, &places);
        self.whole = still(whole, settled);
        Ok(())
    }

    fn rows(&self, alloc: Global) -> Result<Plain, StoreError> {
        self.rows.rows(alloc)
    }
}
