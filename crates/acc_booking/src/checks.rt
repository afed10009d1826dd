//! Whether no more is booked than there is: of the rows of flights, and of those of rooms.
ghost use Rattle.std.specs.Prelude.{◌≡◌, ◌&&◌, find, option_copied, option_map, IfOk, pos, ◌+ℤ◌, int_le};
ghost use Rattle.std.specs.Ordering.{int_eq};
ghost use Rattle.acc_base.specs.Tables.{IsInOrder};
ghost use Rattle.acc_store.specs.Rows.{SumsFit};
ghost use Rattle.acc_booking.specs.Seats.{adds_up as adds_up_of, is_oversold as oversold, first_there as there};
ghost use Rattle.acc_booking.specs.Seats.{first_oversold as first_of, TellsWhether};

use crate::columns::{BOOKED, FLIGHT, FREE, ROOM, STAY, TAKEN, WHOLE};
use crate::designs::BookError;
use acc_base::sequences::copied;
use acc_base::tables::{Key, Plain, Row};
use std::alloc::AllocError;
use tpcc_tables::amounts::{cell, sum_under};

/// Whether two numbers add up to a third.
fn is_sum(whole: i128, free: i128, booked: i128) -> bool
    ensures { result ≡ int_eq whole (free +ℤ booked) }
{
    match free.checked_add(booked) {
        Some(sum) => whole == sum,
        None => false,
    }
}

/// Whether what is free of a row, and what is booked of it in another table, is all that there is.
fn adds_up(rows: &[Row], booked: u32, row: &Row) -> bool
    requires order { IsInOrder rows.now }
    requires fits { SumsFit rows.now }
    ensures { result ≡ adds_up_of rows.now booked row.now }
{
    let free = cell(row, FREE);
    let taken = sum_under(rows, booked, row.key.parts.as_slice(), TAKEN);
    0 <= free && is_sum(cell(row, WHOLE), free, taken)
}

/// Whether a row of this table shows that it doesn't add up.
fn is_oversold(rows: &[Row], table: u32, booked: u32, row: &Row) -> bool
    requires order { IsInOrder rows.now }
    requires fits { SumsFit rows.now }
    ensures { result ≡ oversold rows.now table booked row.now }
{
    row.table == table && !adds_up(rows, booked, row)
}

/// The first row of a table that doesn't add up; it has the least key of those.
fn first_oversold<'a>(rows: &'a [Row], table: u32, booked: u32) -> Option<&'a Row>
    requires order { IsInOrder rows.now }
    requires fits { SumsFit rows.now }
    ensures { option_copied result ≡ find (oversold rows.now table booked) rows.now }
{
    rows.iter()
        .find(|row| is_oversold(rows, table, booked, row))
}

/// A number, and the key of the row that was found.
fn told(number: u32, found: Option<&Row>) -> Result<Option<(u32, Key)>, AllocError>
    ensures { IfOk result (λ told. told ≡ option_map (λ r. (number, r.key)) (option_copied found.entry)) }
{
    match found {
        Some(row) => Ok(Some((number, copied(&row.key)?))),
        None => Ok(None),
    }
}

/// The first of two, and the second where that isn't there.
fn first_there(first: Option<(u32, Key)>, second: Option<(u32, Key)>) -> Option<(u32, Key)>
    ensures { result ≡ there first second }
{
    match first {
        Some(found) => Some(found),
        None => second,
    }
}

/// 1 and the key of the first flight that is oversold, or else 2 and that of the first rooms that are; none exactly where none is.
///
/// A flight or rooms are oversold where fewer than 0 are free, or these and those that are booked aren't all that there are. The rows
/// stand in order, so that the key is the least. The cost is a look-up a row of flights and rooms, by halving.
pub fn check(rows: &Plain) -> Result<Option<(u32, Key)>, BookError>
    requires order { IsInOrder rows.now.rows }
    requires fits { SumsFit rows.now.rows }
    ensures first { IfOk result (λ found. found ≡ first_of rows.now.rows) }
    ensures whether { IfOk result (TellsWhether rows.now.rows) }
{
    let rows = rows.rows.as_slice();
    let flights = told(1, first_oversold(rows, FLIGHT, BOOKED))?;
    let rooms = told(2, first_oversold(rows, ROOM, STAY))?;
    Ok(first_there(flights, rooms))
}
