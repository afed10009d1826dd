//! The same relations, and the same stop, again.
ghost use Rattle.std.specs.Prelude.{◌≡◌, IfOk};

use acc_base::sequences::copied;
use acc_rows::rows::Row;
use acc_rows::stops::Stop;
use std::alloc::{AllocError, Global};

/// The same relation again.
pub fn copied_row(row: &Row) -> Result<Row, AllocError>
    ensures { IfOk result (λ r. r ≡ row.now) }
{
    Ok(Row {
        terms: copied(&row.terms)?,
        constant: row.constant,
        equal: row.equal,
        by: copied(&row.by)?,
    })
}

/// The same relations again.
pub fn copied_rows(alloc: Global, rows: &[Row]) -> Result<Vec<Row>, AllocError>
    ensures { IfOk result (λ v. v.items ≡ rows.now) }
{
    let mut again = Vec::new(alloc);
    for row in rows {
        again.push(copied_row(row)?)?;
    }
    Ok(again)
}

/// The same stop again.
pub fn copied_stop(stop: &Stop) -> Result<Stop, AllocError>
    ensures { IfOk result (λ s. s ≡ stop.now) }
{
    match stop {
        Stop::Refuted(row) => Ok(Stop::Refuted(copied_row(row)?)),
        Stop::Wide => Ok(Stop::Wide),
        Stop::Many => Ok(Stop::Many),
        Stop::Memory => Ok(Stop::Memory),
    }
}
