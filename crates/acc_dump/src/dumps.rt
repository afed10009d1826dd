//! Rows as text, a line each.
ghost use Rattle.std.specs.Prelude.{◌≡◌, IfOk, slice_get};
ghost use Rattle.std.specs.List.{flat_map};
ghost use Rattle.acc_base.specs.Lines.{spaced};
ghost use Rattle.acc_page.specs.Written.{Adds};
ghost use Rattle.acc_dump.specs.Dumps.{table_name, row_line, dump_text};

use acc_base::designs::Design;
use acc_base::tables::Row;
use acc_page::Page;
use acc_store::{Store, StoreError};
use std::alloc::{AllocError, Global};

/// Writes the parts of a key, each behind a space.
pub fn push_parts(out: &mut Page, parts: &[i64])
    ensures { Adds out.old out.new (flat_map spaced parts.now) }
{
    for part in parts {
        out.push(b" ");
        out.push_number(*part);
    }
}

/// Columns, each behind a space.
fn push_columns(out: &mut Page, columns: &[i128])
    ensures { Adds out.old out.new (flat_map spaced columns.now) }
{
    for column in columns {
        out.push(b" ");
        out.push_number(*column);
    }
}

/// The name of the table of that number; none where there is no such table.
fn name_of(d: &Design, number: u32) -> &[u8]
    ensures { result.now ≡ table_name (slice_get d.now.tables number) }
{
    match d.tables.as_slice().get(number as usize) {
        Some(table) => table.name.as_slice(),
        None => b"",
    }
}

/// Writes the line of a row.
fn push_row(out: &mut Page, d: &Design, row: &Row)
    ensures { Adds out.old out.new (row_line d.now row.now) }
{
    out.push(name_of(d, row.table));
    push_parts(out, row.key.parts.as_slice());
    out.push(b" :");
    push_columns(out, row.cols.as_slice());
    out.push(b"\n");
}

/// Writes the lines of rows, in their order.
fn push_rows(out: &mut Page, d: &Design, rows: &[Row])
    ensures { Adds out.old out.new (dump_text d.now rows.now) }
{
    for row in rows {
        push_row(out, d, row);
    }
}

/// The rows of a store, by table and then key, a line each: the table's name, the key's parts, a colon, and the columns.
pub fn dump<S: Store>(alloc: Global, d: &Design, store: &S) -> Result<Vec<u8>, AllocError>
    ensures { IfOk result (λ text. text.items ≡ dump_text d.now (S.rows store.now)) }
{
    let mut text = Page::new(alloc);
    match store.rows(alloc) {
        Ok(plain) => push_rows(&mut text, d, plain.rows.as_slice()),
        Err(StoreError::Memory) => return Err(AllocError),
    }
    text.finish().ok_or(AllocError)
}
