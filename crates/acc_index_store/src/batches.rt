//! Indexes of rows that are written.
ghost use Rattle.std.specs.Prelude.{◌≡◌, All, List, OnOk, OnErr};
ghost use Rattle.acc_base.specs.declared.tables.Row.{Row};
ghost use Rattle.acc_base.specs.Tables.{IsInOrder};
ghost use Rattle.acc_store.specs.Rows.{written, IsNarrow, SumsFit};
ghost use Rattle.acc_index_store.specs.Indexes.{HaveRoom, AreNone, IsIndexOf, AreIndexes, StayIndexes, HaveNone, HaveAllRoom};
ghost use Rattle.acc_index_store.specs.Indexes.{before, behind};

use crate::indexes::{Index, count_rows, forget, make_room};
use crate::totals::Way;
use acc_store::{MapStore, Store, StoreError, Write};
use std::alloc::{AllocError, Global};

/// Makes room in an index.
fn make_room_in(index: &mut Index, alloc: Global, writes: &[Write]) -> Result<(), AllocError>
    ensures same { (rows : List Row) → IsIndexOf rows index.old → IsIndexOf rows index.new }
    ensures room { OnOk result (HaveRoom index.new.kept writes.now index.new.totals.entries) }
{
    make_room(index.kept, &mut index.totals, alloc, writes)
}

/// Makes room in each index.
pub fn make_all_room(
    indexes: &mut [Index],
    alloc: Global,
    writes: &[Write],
) -> Result<(), AllocError>
    ensures same { StayIndexes indexes.old indexes.new }
    ensures room { OnOk result (HaveAllRoom writes.now indexes.new) }
{
    for index in indexes.iter_mut() {
        make_room_in(index, alloc, writes)?;
    }
    Ok(())
}

/// Counts in an index each row that writes name.
fn count_in(index: &mut Index, rows: &MapStore, writes: &[Write], way: Way)
    requires order { IsInOrder rows.now }
    requires sums { SumsFit rows.now }
    requires room { HaveRoom index.old.kept writes.now index.old.totals.entries }
    requires totals { IsIndexOf (before way writes.now rows.now) index.old }
    ensures totals { IsIndexOf (behind way writes.now rows.now) index.new }
    ensures room { HaveRoom index.new.kept writes.now index.new.totals.entries }
{
    count_rows(index.kept, &mut index.totals, rows, writes, way);
}

/// Counts in each index each row that writes name.
fn count_in_all(indexes: &mut [Index], rows: &MapStore, writes: &[Write], way: Way)
    requires order { IsInOrder rows.now }
    requires sums { SumsFit rows.now }
    requires room { HaveAllRoom writes.now indexes.old }
    requires totals { AreIndexes (before way writes.now rows.now) indexes.old }
    ensures totals { AreIndexes (behind way writes.now rows.now) indexes.new }
    ensures room { HaveAllRoom writes.now indexes.new }
{
    for index in indexes.iter_mut() {
        count_in(index, rows, writes, way);
    }
}

/// Forgets in an index the totals of no row.
fn forget_in(index: &mut Index, writes: &[Write])
    requires none { AreNone index.old.kept index.old.totals.entries }
    ensures same { (rows : List Row) → IsIndexOf rows index.old → IsIndexOf rows index.new }
{
    forget(index.kept, &mut index.totals, writes);
}

/// Forgets in each index the totals of no row.
pub fn forget_in_all(indexes: &mut [Index], writes: &[Write])
    requires none { HaveNone indexes.old }
    ensures same { StayIndexes indexes.old indexes.new }
{
    for index in indexes.iter_mut() {
        forget_in(index, writes);
    }
}

/// Does writes for which each index has room. The rows that they name are taken out of the totals before, and those that stand
/// there then are added again, so that no sum has to fit but those of the rows before and of those after.
pub fn write_all(
    rows: &mut MapStore,
    indexes: &mut [Index],
    writes: &[Write],
) -> Result<(), StoreError>
    requires narrow { All IsNarrow writes.now }
    requires written { SumsFit (written writes.now rows.old) }
    requires order { IsInOrder rows.old }
    requires sums { SumsFit rows.old }
    requires room { HaveAllRoom writes.now indexes.old }
    requires totals { AreIndexes rows.old indexes.old }
    ensures ok { OnOk result (rows.new ≡ written writes.now rows.old) }
    ensures err { OnErr result (rows.new ≡ rows.old) }
    ensures totals { AreIndexes rows.new indexes.new }
{
    count_in_all(indexes, rows, writes, Way::Out);
    let done = rows.apply(writes);
    count_in_all(indexes, rows, writes, Way::In);
    done
}

/// Does writes, or none, where memory for the indexes is still to be taken.
fn make_room_and_write(
    rows: &mut MapStore,
    indexes: &mut [Index],
    alloc: Global,
    writes: &[Write],
) -> Result<(), StoreError>
    requires narrow { All IsNarrow writes.now }
    requires written { SumsFit (written writes.now rows.old) }
    requires order { IsInOrder rows.old }
    requires sums { SumsFit rows.old }
    requires totals { AreIndexes rows.old indexes.old }
    ensures ok { OnOk result (rows.new ≡ written writes.now rows.old) }
    ensures err { OnErr result (rows.new ≡ rows.old) }
    ensures totals { AreIndexes rows.new indexes.new }
{
    make_all_room(indexes, alloc, writes)?;
    write_all(rows, indexes, writes)
}

/// Does writes, or none. What they leave without a row is forgotten.
pub fn apply_writes(
    rows: &mut MapStore,
    indexes: &mut [Index],
    alloc: Global,
    writes: &[Write],
) -> Result<(), StoreError>
    requires narrow { All IsNarrow writes.now }
    requires written { SumsFit (written writes.now rows.old) }
    requires order { IsInOrder rows.old }
    requires sums { SumsFit rows.old }
    requires totals { AreIndexes rows.old indexes.old }
    ensures ok { OnOk result (rows.new ≡ written writes.now rows.old) }
    ensures err { OnErr result (rows.new ≡ rows.old) }
    ensures order { IsInOrder rows.new }
    ensures sums { SumsFit rows.new }
    ensures totals { AreIndexes rows.new indexes.new }
{
    let done = make_room_and_write(rows, indexes, alloc, writes);
    forget_in_all(indexes, writes);
    done
}
