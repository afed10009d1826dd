// Rows as bytes.
ghost use Rattle.std.specs.Prelude.{◌≡◌, ◌<◌, ◌^◌, ◌++◌, length, All, IfOk, IfErr, OnOk};
ghost use Rattle.std.specs.List.{flat_map};
ghost use Rattle.acc_base.specs.Tables.{IsInOrder};
ghost use Rattle.acc_ckpt.specs.Texts.{part_bytes, column_bytes, row_bytes, text_of, IsNarrow, IsCounted};
ghost use Rattle.acc_ckpt.specs.declared.errors.CkptError.TheVariants.{Memory};

use crate::CkptError;
use acc_base::tables::{Plain, Row};
use std::alloc::{AllocError, Global};

fn push_parts(out: &mut Vec<u8>, parts: &[i64]) -> Result<(), AllocError>
    ensures { OnOk result (out.new.items ≡ out.old.items ++ flat_map part_bytes parts.now) }
{
    for part in parts {
        out.extend_from_slice(&part.to_be_bytes())?;
    }
    Ok(())
}

fn push_columns(out: &mut Vec<u8>, columns: &[i128]) -> Result<(), AllocError>
    ensures { OnOk result (out.new.items ≡ out.old.items ++ flat_map column_bytes columns.now) }
{
    for column in columns {
        out.extend_from_slice(&column.to_be_bytes())?;
    }
    Ok(())
}

#[tactic(auto, unfolding(crate::specs::Texts::row_bytes))]
fn push_row(out: &mut Vec<u8>, row: &Row) -> Result<(), AllocError>
    requires { IsNarrow row.now }
    ensures { OnOk result (out.new.items ≡ out.old.items ++ row_bytes row.now) }
{
    out.extend_from_slice(&row.table.to_be_bytes())?;
    out.extend_from_slice(&[row.key.parts.len() as u8])?;
    push_parts(out, row.key.parts.as_slice())?;
    out.extend_from_slice(&[row.cols.len() as u8])?;
    push_columns(out, row.cols.as_slice())
}

fn push_rows(out: &mut Vec<u8>, rows: &[Row]) -> Result<(), AllocError>
    requires { All IsNarrow rows.now }
    ensures { OnOk result (out.new.items ≡ out.old.items ++ flat_map row_bytes rows.now) }
{
    for row in rows {
        push_row(out, row)?;
    }
    Ok(())
}

/// The text of the rows, which stand by table and then by key: the number of rows (4 bytes), and for each its table (4), the number of
/// its key's parts (1), these (8 each), the number of its columns (1), and these (16 each), each number with its highest byte first.
///
/// `Memory` is its only error. It takes time and memory with the text's length.
#[tactic(auto, unfolding(crate::specs::Texts::text_of))]
pub fn text(alloc: Global, p: &Plain) -> Result<Vec<u8>, CkptError>
    requires order { IsInOrder p.now.rows }
    requires counts { IsCounted p.now.rows }
    ensures ok { IfOk result (λ text. text.items ≡ text_of p.now.rows) }
    ensures why { IfErr result (λ error. error ≡ Memory) }
{
    let rows = p.rows.as_slice();
    let mut out = Vec::new(alloc);
    out.extend_from_slice(&(rows.len() as u32).to_be_bytes())?;
    push_rows(&mut out, rows)?;
    Ok(out)
}
