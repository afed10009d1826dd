// How long the text of rows is.
ghost use Rattle.std.specs.Prelude.{◌≡◌, ◌≤◌, ◌<◌, ◌+◌, ◌*◌, ◌^◌, length, All};
ghost use Rattle.acc_ckpt.specs.Texts.{row_bytes, rows_length, text_of, IsNarrow, IsCounted};

use acc_base::tables::{Plain, Row};

fn row_len(row: &Row) -> u64
    requires { IsNarrow row.now }
    ensures len { result ≡ length (row_bytes row.now) }
    ensures short { result < 2 ^ 13 }
{
    6 + 8 * row.key.parts.len() as u64 + 16 * row.cols.len() as u64
}

fn rows_len(rows: &[Row]) -> u64
    requires each { All IsNarrow rows.now }
    requires few { length rows.now < 2 ^ 32 }
    ensures { result ≡ 4 + rows_length rows.now }
{
    let mut len = 4;
    for row in rows {
        len += row_len(row);
    }
    len
}

/// How many bytes the text of the rows has. It takes time with their number, and no memory.
pub fn text_len(p: &Plain) -> u64
    requires { IsCounted p.now.rows }
    ensures { result ≡ length (text_of p.now.rows) }
{
    rows_len(p.rows.as_slice())
}
