//! Writes of rows.
use acc_base::tables::{Key, Row as TableRow};

/// What a write does to the rows.
#[derive(Drop)]
pub enum Write {
    /// This row is put, in place of one with its table and key.
    Row(TableRow),
    /// The row of this table with this key is dropped, if there is one.
    Gone(u32, Key),
}
