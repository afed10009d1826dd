//! Where a journal's rows stand.
ghost use Rattle.std.specs.Prelude.{◌≡◌, [], IfSome};

use acc_index_store::IndexStore;
use acc_lift::Accepted;
use acc_store::StoreError;
use std::alloc::Global;

/// A store without rows that keeps the totals that the design's steps read; none where memory lacks.
pub fn empty_rows(alloc: Global, d: &Accepted) -> Option<IndexStore>
    ensures { IfSome result (λ rows. rows ≡ []) }
{
    match IndexStore::of(alloc, d.design()) {
        Ok(rows) => Some(rows),
        Err(StoreError::Memory) => None,
    }
}
