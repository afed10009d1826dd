//! The tests of the consistency conditions of TPC-C (clause 3.3.2 of the standard), each of one row of the table that it speaks of.
//! The rows stand in order, and their sums fit.
ghost use Rattle.std.specs.Prelude.{◌≡◌, ◌-ℤ◌, ◌+ℤ◌, length, pos};
ghost use Rattle.std.specs.Ordering.{int_eq};
ghost use Rattle.acc_base.specs.Tables.{IsInOrder, cell as cell_of, count_of, least_of, greatest_of};
ghost use Rattle.acc_store.specs.Rows.{SumsFit};
ghost use Rattle.tpcc_tables.specs.Conditions.{districts_add_up as districts, last_order as last, waiting_orders as waiting};
ghost use Rattle.tpcc_tables.specs.Conditions.{district_lines as lines_together};
ghost use Rattle.tpcc_tables.specs.Conditions.{carriers as carried, order_lines as lines_each, dates as dated};
ghost use Rattle.tpcc_tables.specs.Conditions.{payments_add_up as payments, same as same_as};
ghost use Rattle.tpcc_tables.specs.Lines.{CountsLines};
ghost use Rattle.tpcc_tables.specs.Schema.{number_of};

use crate::amounts::{cell, column, count_under, greatest_under, has, least_under, sum_under};
use crate::columns::{AMOUNT, CARRIER, DELIVERY_DATE, LINE_COUNT, NEXT_ORDER, YTD};
use crate::lines::{LineCounts, lines_of, order_of};
use crate::tables::{SchemaTable, TableSet};
use acc_base::tables::Row;

/// Condition 1 (3.3.2.1) of a warehouse: what it took is what its districts took.
pub fn districts_add_up(s: &TableSet, rows: &[Row], row: &Row) -> bool
    requires whole { length s.now.tables ≡ 11 }
    requires order { IsInOrder rows.now }
    requires fits { SumsFit rows.now }
    ensures { result ≡ districts s.now rows.now row.now }
{
    let key = row.key.parts.as_slice();
    cell(row, YTD) == sum_under(rows, s.number(SchemaTable::District), key, YTD)
}

/// Whether a number is the one before the next.
fn is_before(number: i64, next: i128) -> bool
    ensures { result ≡ int_eq (next -ℤ pos 1) number }
{
    next == number as i128 + 1
}

/// Whether the greatest part behind the key of a district is the number before its next order's.
fn is_last(rows: &[Row], table: u32, row: &Row) -> bool
    requires { IsInOrder rows.now }
    ensures { result ≡ int_eq (cell_of NEXT_ORDER row.now -ℤ pos 1) (greatest_of rows.now table row.now.key.parts) }
{
    is_before(
        greatest_under(rows, table, row.key.parts.as_slice()),
        cell(row, NEXT_ORDER),
    )
}

/// Whether a count is 0.
fn is_none(count: u64) -> bool
    ensures { result ≡ int_eq (pos count) (pos 0) }
{
    count as i128 == 0
}

/// Whether a table has no row below the key of a row.
fn is_empty(rows: &[Row], table: u32, row: &Row) -> bool
    requires { IsInOrder rows.now }
    ensures { result ≡ int_eq (count_of rows.now table row.now.key.parts) (pos 0) }
{
    is_none(count_under(rows, table, row.key.parts.as_slice()))
}

/// Condition 2 (3.3.2.2) of a district: the order before its next is its last, and where orders wait, the last of those.
pub fn last_order(s: &TableSet, rows: &[Row], row: &Row) -> bool
    requires whole { length s.now.tables ≡ 11 }
    requires order { IsInOrder rows.now }
    ensures { result ≡ last s.now rows.now row.now }
{
    let waiting = s.number(SchemaTable::NewOrder);
    is_last(rows, s.number(SchemaTable::Orders), row)
        && (is_empty(rows, waiting, row) || is_last(rows, waiting, row))
}

/// How many numbers there are from one to another.
fn span(from: i64, to: i64) -> i128
    ensures { result ≡ (to -ℤ from) +ℤ pos 1 }
{
    to as i128 - from as i128 + 1
}

/// Whether a number is a count.
fn is_count(number: i128, count: u64) -> bool
    ensures { result ≡ int_eq number (pos count) }
{
    number == count as i128
}

/// Whether as many rows stand below the key of a row as there are numbers from their least part to their greatest.
fn are_all_there(rows: &[Row], table: u32, row: &Row) -> bool
    requires { IsInOrder rows.now }
    ensures { result ≡ int_eq ((greatest_of rows.now table row.now.key.parts -ℤ least_of rows.now table row.now.key.parts) +ℤ pos 1)
        (count_of rows.now table row.now.key.parts) }
{
    let key = row.key.parts.as_slice();
    let least = least_under(rows, table, key);
    let greatest = greatest_under(rows, table, key);
    is_count(span(least, greatest), count_under(rows, table, key))
}

/// Condition 3 (3.3.2.3) of a district: where orders wait, as many do as there are numbers from the first to the last of them.
pub fn waiting_orders(s: &TableSet, rows: &[Row], row: &Row) -> bool
    requires whole { length s.now.tables ≡ 11 }
    requires order { IsInOrder rows.now }
    ensures { result ≡ waiting s.now rows.now row.now }
{
    let waiting = s.number(SchemaTable::NewOrder);
    is_empty(rows, waiting, row) || are_all_there(rows, waiting, row)
}

/// Condition 4 (3.3.2.4) of a district: its orders have as many lines as they say, together.
pub fn district_lines(s: &TableSet, rows: &[Row], row: &Row) -> bool
    requires whole { length s.now.tables ≡ 11 }
    requires order { IsInOrder rows.now }
    requires fits { SumsFit rows.now }
    ensures { result ≡ lines_together s.now rows.now row.now }
{
    let key = row.key.parts.as_slice();
    sum_under(rows, s.number(SchemaTable::Orders), key, LINE_COUNT)
        == count_under(rows, s.number(SchemaTable::OrderLine), key) as i128
}

/// Whether both are so or neither.
fn same(a: bool, b: bool) -> bool
    ensures { result ≡ same_as a b }
{
    if a { b } else { !b }
}

/// Condition 5 (3.3.2.5) of an order: it has no carrier exactly where it waits.
pub fn carriers(s: &TableSet, rows: &[Row], row: &Row) -> bool
    requires whole { length s.now.tables ≡ 11 }
    requires order { IsInOrder rows.now }
    ensures { result ≡ carried s.now rows.now row.now }
{
    let key = row.key.parts.as_slice();
    same(
        cell(row, CARRIER) == 0,
        has(rows, s.number(SchemaTable::NewOrder), key),
    )
}

/// Condition 6 (3.3.2.6) of an order: it has as many lines as it says.
pub fn order_lines(s: &TableSet, rows: &[Row], counts: &LineCounts, row: &Row) -> bool
    requires { CountsLines (number_of s.now SchemaTable.OrderLine) rows.now counts.now }
    ensures { result ≡ lines_each s.now rows.now row.now }
{
    is_count(
        cell(row, LINE_COUNT),
        lines_of(counts, row.key.parts.as_slice()),
    )
}

/// Condition 7 (3.3.2.7) of a line: it has no date exactly where its order has no carrier.
pub fn dates(s: &TableSet, rows: &[Row], row: &Row) -> bool
    requires whole { length s.now.tables ≡ 11 }
    requires order { IsInOrder rows.now }
    ensures { result ≡ dated s.now rows.now row.now }
{
    let order = order_of(row.key.parts.as_slice());
    same(
        cell(row, DELIVERY_DATE) == 0,
        column(rows, s.number(SchemaTable::Orders), &order, CARRIER) == 0,
    )
}

/// Conditions 8 and 9 (3.3.2.8, 3.3.2.9) of a warehouse or a district: what it took is what its payments were.
pub fn payments_add_up(s: &TableSet, rows: &[Row], row: &Row) -> bool
    requires whole { length s.now.tables ≡ 11 }
    requires order { IsInOrder rows.now }
    requires fits { SumsFit rows.now }
    ensures { result ≡ payments s.now rows.now row.now }
{
    let key = row.key.parts.as_slice();
    cell(row, YTD) == sum_under(rows, s.number(SchemaTable::History), key, AMOUNT)
}
