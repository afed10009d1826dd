//! Numbers that rows give: columns, and what is counted, summed and found below a prefix. The rows stand in order.
ghost use Rattle.std.specs.Prelude.{◌≡◌, ◌==◌, ◌≤◌, ◌^◌, ◌+◌, length, map, filter, pos, find, unsigned_abs, ◌+ℤ◌, option_copied, slice_get};
ghost use Rattle.std.specs.Int.{int_min, int_max};
ghost use Rattle.std.specs.List.{list_any, sum_by};
ghost use Rattle.acc_base.specs.Numbers.{total};
ghost use Rattle.acc_base.specs.Tables.{IsInOrder, is_at, cell as cell_of, column_of, count_of, sum_of, least_of, greatest_of, best};
ghost use Rattle.acc_base.specs.Tables.{parts_at};
ghost use Rattle.acc_store.specs.Rows.{IsRising, SumsFit};

use crate::rows::rows_under;
use acc_base::bounds::LARGEST_SUM;
use acc_base::tables::Row;

/// A column of a row, which is 0 where the row lacks it.
pub fn cell(row: &Row, col: usize) -> i128
    ensures { result ≡ cell_of col row.now }
{
    match row.cols.as_slice().get(col) {
        Some(value) => *value,
        None => 0,
    }
}

/// A sum, which fits.
fn plus(a: i128, b: i128) -> i128
    requires fits { unsigned_abs a + unsigned_abs b ≤ LARGEST_SUM }
    ensures value { result ≡ a +ℤ b }
    ensures bound { unsigned_abs result ≤ unsigned_abs a + unsigned_abs b }
{
    a + b
}

/// The sum of a column of rows.
fn sum(rows: &[Row], col: usize) -> i128
    requires fits { sum_by (λ r. unsigned_abs (cell_of col r)) rows.now ≤ LARGEST_SUM }
    ensures { result ≡ total (map (cell_of col) rows.now) }
{
    let mut sum = 0;
    for row in rows {
        sum = plus(sum, cell(row, col));
    }
    sum
}

/// The sum of a column of the rows of a table whose keys begin with a prefix.
pub fn sum_under(rows: &[Row], table: u32, prefix: &[i64], col: usize) -> i128
    requires order { IsInOrder rows.now }
    requires fits { SumsFit rows.now }
    ensures { result ≡ sum_of rows.now table prefix.now col }
{
    sum(rows_under(rows, table, prefix), col)
}

/// How many rows of a table have keys that begin with a prefix.
pub fn count_under(rows: &[Row], table: u32, prefix: &[i64]) -> u64
    requires { IsInOrder rows.now }
    ensures { pos result ≡ count_of rows.now table prefix.now }
{
    rows_under(rows, table, prefix).len() as u64
}

/// The part at a place of the key of a row.
fn part_at(row: &Row, at: usize) -> Option<i64>
    ensures { result ≡ slice_get row.now.key.parts at }
{
    row.key.parts.as_slice().get(at).copied()
}

/// The least part at a place of the keys of rows along which these parts rise, and 0 where there is none.
fn least_part(rows: &[Row], at: usize) -> i64
    requires { IsRising (parts_at at rows.now) }
    ensures { result ≡ best int_min (parts_at at rows.now) }
{
    for row in rows {
        if let Some(part) = part_at(row, at) {
            return part;
        }
    }
    0
}

/// The greatest part at a place of the keys of rows along which these parts rise, and 0 where there is none.
fn greatest_part(rows: &[Row], at: usize) -> i64
    requires { IsRising (parts_at at rows.now) }
    ensures { result ≡ best int_max (parts_at at rows.now) }
{
    let mut rest = rows;
    while let Some((row, front)) = rest.split_last() {
        if let Some(part) = part_at(row, at) {
            return part;
        }
        rest = front;
    }
    0
}

/// The least part behind a prefix of the keys of a table, and 0 where there is none.
pub fn least_under(rows: &[Row], table: u32, prefix: &[i64]) -> i64
    requires { IsInOrder rows.now }
    ensures { result ≡ least_of rows.now table prefix.now }
{
    least_part(rows_under(rows, table, prefix), prefix.len())
}

/// The greatest part behind a prefix of the keys of a table, and 0 where there is none.
pub fn greatest_under(rows: &[Row], table: u32, prefix: &[i64]) -> i64
    requires { IsInOrder rows.now }
    ensures { result ≡ greatest_of rows.now table prefix.now }
{
    greatest_part(rows_under(rows, table, prefix), prefix.len())
}

/// The first of the rows whose key has so many parts.
fn find_of_length(rows: &[Row], len: usize) -> Option<&Row>
    ensures { option_copied result ≡ find (λ r. length r.key.parts == len) rows.now }
{
    rows.iter().find(|row| row.key.parts.len() == len)
}

/// The row of a table with a key.
fn find_at<'a>(rows: &'a [Row], table: u32, key: &[i64]) -> Option<&'a Row>
    requires { IsInOrder rows.now }
    ensures { option_copied result ≡ find (is_at table key.now) rows.now }
{
    find_of_length(rows_under(rows, table, key), key.len())
}

/// Whether a table has a row with a key.
pub fn has(rows: &[Row], table: u32, key: &[i64]) -> bool
    requires { IsInOrder rows.now }
    ensures { result ≡ list_any (is_at table key.now) rows.now }
{
    find_at(rows, table, key).is_some()
}

/// A column of the row of a table with a key, which is 0 where there is no such row.
pub fn column(rows: &[Row], table: u32, key: &[i64], col: usize) -> i128
    requires { IsInOrder rows.now }
    ensures { result ≡ column_of rows.now table key.now col }
{
    match find_at(rows, table, key) {
        Some(row) => cell(row, col),
        None => 0,
    }
}
