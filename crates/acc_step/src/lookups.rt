//! What stands at a key after writes that are not yet done.
ghost use Rattle.std.specs.Prelude.{◌≡◌, All, option_copied};
ghost use Rattle.std.specs.Ordering.{is_eq};
ghost use Rattle.acc_base.specs.Tables.{place_cmp, IsInOrder};
ghost use Rattle.acc_store.specs.Rows.{written, IsNarrow};
ghost use Rattle.acc_step.specs.Overlay.{columns_at, columns_step, AreFew};

use acc_store::{Store, Write};
use std::cmp::Ordering;

/// Whether two keys are the same.
pub fn is_place(table: u32, key: &[i64], other_table: u32, other: &[i64]) -> bool
    ensures { result ≡ is_eq (place_cmp (table, key.now) (other_table, other.now)) }
{
    match table.cmp(&other_table) {
        Ordering::Equal => key.cmp(&other).is_eq(),
        Ordering::Less | Ordering::Greater => false,
    }
}

/// The columns at a key after a write.
fn columns_with<'a>(
    cols: Option<&'a [i128]>,
    write: &'a Write,
    table: u32,
    key: &[i64],
) -> Option<&'a [i128]>
    requires narrow { IsNarrow write.now }
    requires few { AreFew (option_copied cols) }
    ensures value { option_copied result ≡ columns_step (table, key.now) write.now (option_copied cols.entry) }
    ensures few { AreFew (option_copied result) }
{
    match write {
        Write::Row(row) => {
            if is_place(table, key, row.table, row.key.parts.as_slice()) {
                Some(row.cols.as_slice())
            } else {
                cols
            }
        }
        Write::Gone(other, parts) => {
            if is_place(table, key, *other, parts.parts.as_slice()) {
                None
            } else {
                cols
            }
        }
    }
}

/// The columns of the row at a key after writes, if there is one. It walks the writes.
pub fn columns_now<'a, S: Store>(
    s: &'a S,
    writes: &'a [Write],
    table: u32,
    key: &[i64],
) -> Option<&'a [i128]>
    requires order { IsInOrder (S.rows s.now) }
    requires narrow { All IsNarrow writes.now }
    ensures value { option_copied result ≡ columns_at (table, key.now) (written writes.now (S.rows s.now)) }
    ensures few { AreFew (option_copied result) }
{
    let mut cols = s.columns(table, key);
    for write in writes {
        cols = columns_with(cols, write, table, key);
    }
    cols
}
