//! The consistency conditions of TPC-C at the end.
ghost use Rattle.std.specs.Prelude.{◌≡◌, length, IfOk};
ghost use Rattle.acc_base.specs.Tables.{IsInOrder};
ghost use Rattle.acc_store.specs.Rows.{SumsFit};
ghost use Rattle.tpcc_tables.specs.Schema.{IsSchemaOf};
ghost use Rattle.acc_bench.specs.Conditions.{IsLowest};

use crate::results::FalseCondition;
use acc_base::tables::Plain;
use acc_index_store::IndexStore;
use acc_journalled::key_against;
use acc_lock_rules::State;
use acc_store::{Store, StoreError};
use std::alloc::{AllocError, Global};
use tpcc_tables::TableSet;
use tpcc_tables::kinds::CONDITIONS;

/// The lowest condition that is false of rows, if one is.
fn lowest_false(
    alloc: Global,
    s: &TableSet,
    rows: &Plain,
) -> Result<Option<FalseCondition>, AllocError>
    requires whole { length s.now.tables ≡ 11 }
    requires order { IsInOrder rows.now.rows }
    requires fits { SumsFit rows.now.rows }
    ensures { IfOk result (IsLowest s.now rows.now.rows) }
{
    for at in 0..CONDITIONS.len() as u32 {
        if let Some(key) = key_against(alloc, s, at + 1, rows)? {
            return Ok(Some(FalseCondition {
                number: at + 1,
                key,
            }));
        }
    }
    Ok(None)
}

/// The lowest condition that is false of a state's rows, if one is.
pub fn judge(
    alloc: Global,
    s: &TableSet,
    state: &State<IndexStore>,
) -> Result<Option<FalseCondition>, AllocError>
    requires schema { IsSchemaOf s.now state.now.design }
    ensures { IfOk result (IsLowest s.now state.now.world.rows) }
{
    let _events = state.events();
    match state.store().rows(alloc) {
        Ok(rows) => lowest_false(alloc, s, &rows),
        Err(StoreError::Memory) => Err(AllocError),
    }
}
