//! Whether a flight is oversold, over no row or one.
ghost use Rattle.std.specs.Prelude.{◌^◌, IfOk};
ghost use Rattle.acc_base.specs.Tables.{IsInOrder};
ghost use Rattle.acc_store.specs.Bounds.{IsWithin};
ghost use Rattle.acc_store.specs.Rows.{SumsFit};

use acc_base::sequences::Seq;
use acc_base::tables::{Key, Plain, Row};
use acc_booking::columns::FLIGHT;
use acc_booking::{BookError, check};
use std::alloc::{AllocError, Global};
use std::fmt::Write;

/// The number that a word spells, and 0 where it spells none.
fn value(word: &str) -> i64 {
    word.parse().unwrap_or(0)
}

/// The row of a flight with this number, so many seats and so many free ones.
fn flight(alloc: Global, number: i64, seats: i64, free: i64) -> Result<Row, AllocError>
    ensures { IfOk result (IsWithin (2 ^ 64)) }
{
    Ok(Row {
        table: FLIGHT,
        key: Key {
            parts: Seq::from_vec(Vec::from_slice(alloc, &[number])?),
        },
        cols: Seq::from_vec(Vec::from_slice(alloc, &[i128::from(seats), i128::from(free)])?),
    })
}

/// One row.
fn one_row(alloc: Global, row: Row) -> Result<Plain, AllocError>
    requires within { IsWithin (2 ^ 64) row }
    ensures order { IfOk result (λ plain. IsInOrder plain.rows) }
    ensures fits { IfOk result (λ plain. SumsFit plain.rows) }
{
    let mut rows = Vec::new(alloc);
    rows.push(row)?;
    Ok(Plain {
        rows: Seq::from_vec(rows),
    })
}

/// No row.
fn no_rows(alloc: Global) -> Plain
    ensures order { IsInOrder result.rows }
    ensures fits { SumsFit result.rows }
{
    Plain {
        rows: Seq::new(alloc),
    }
}

/// The row of a flight's number, seats and free seats in words, or no row.
fn rows_of(alloc: Global, words: &[&str]) -> Result<Plain, AllocError>
    ensures order { IfOk result (λ plain. IsInOrder plain.rows) }
    ensures fits { IfOk result (λ plain. SumsFit plain.rows) }
{
    match words {
        [number, seats, free] => {
            one_row(
                alloc,
                flight(alloc, value(number), value(seats), value(free))?,
            )
        }
        _ => Ok(no_rows(alloc)),
    }
}

/// Pushes what the test of the shipped booking design answers of the row of a flight: its number, its seats and its free seats; '-' is no
/// row.
pub fn push_oversold(alloc: Global, out: &mut String, rest: &str) -> Result<(), AllocError> {
    let words: Vec<&str> = rest.split(' ').collect(alloc)?;
    let rows = rows_of(alloc, words.as_slice())?;
    match check(&rows) {
        Ok(Some((number, key))) => write!(out, "{number} {:?}", key.parts.as_slice()),
        Ok(None) => out.push_str("none"),
        Err(BookError::Memory) => Err(AllocError),
    }
}
