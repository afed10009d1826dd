//! The places that writes name, and under which prefix a row counts.
ghost use Rattle.std.specs.Prelude.{◌≡◌, option_copied};
ghost use Rattle.acc_base.specs.Tables.{is_at};
ghost use Rattle.acc_index_store.specs.Indexes.{place_written, names, are_naming, prefix_at};

use acc_store::Write;

/// What is counted: rows of a table by the first parts of their keys, and what a column of theirs adds up to.
#[derive(Clone, Copy)]
pub struct Prefixes {
    pub table: u32,
    /// How many parts.
    pub parts: usize,
    pub col: u32,
}

/// The table and key that a write names.
pub(crate) fn place_of(write: &Write) -> (u32, &[i64])
    ensures table { result.0 ≡ (place_written write.now).0 }
    ensures key { result.1.now ≡ (place_written write.now).1 }
{
    match write {
        Write::Row(row) => (row.table, row.key.parts.as_slice()),
        Write::Gone(table, key) => (*table, key.parts.as_slice()),
    }
}

/// Whether a write names a place.
fn names(write: &Write, table: u32, key: &[i64]) -> bool
    ensures { result ≡ names (table, key.now) write.now }
{
    let (named, parts) = place_of(write);
    table == named && key == parts
}

/// Whether one of some writes names the place of another.
pub(crate) fn is_named(writes: &[Write], write: &Write) -> bool
    ensures { result ≡ are_naming writes.now (place_written write.now) }
{
    let (table, key) = place_of(write);
    writes.iter().any(|other| names(other, table, key))
}

/// The prefix under which a row at a place counts, if rows like it are counted.
pub(crate) fn prefix_of<'a>(kept: Prefixes, table: u32, key: &'a [i64]) -> Option<&'a [i64]>
    ensures { option_copied result ≡ prefix_at kept (table, key.now) }
{
    if kept.table == table && kept.parts <= key.len() {
        Some(&key[..kept.parts])
    } else {
        None
    }
}
