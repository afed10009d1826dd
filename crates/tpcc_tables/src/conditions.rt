//! The consistency conditions of TPC-C (clause 3.3.2 of the standard), and the first row that shows one false.
ghost use Rattle.std.specs.Prelude.{◌≡◌, ◌≤◌, ◌-◌, length, IfOk, find, option_map, option_copied, get_or};
ghost use Rattle.acc_base.specs.Tables.{IsInOrder};
ghost use Rattle.acc_store.specs.Rows.{SumsFit};
ghost use Rattle.tpcc_tables.specs.Conditions.{passes as passes_test, is_wrong as wrong};
ghost use Rattle.tpcc_tables.specs.Lines.{CountsLines};
ghost use Rattle.tpcc_tables.specs.Schema.{number_of};

use crate::checks::{
    carriers, dates, district_lines, districts_add_up, last_order, order_lines, payments_add_up,
    waiting_orders,
};
use crate::kinds::{CONDITIONS, Condition};
use crate::lines::{LineCounts, count_lines};
use crate::tables::{SchemaTable, TableSet};
use acc_base::sequences::copied;
use acc_base::tables::{Key, Plain, Row};
use std::alloc::{AllocError, Global};
use std::collections::BTreeMap;

/// Why a condition isn't decided.
#[derive(Clone, Copy, Debug, PartialEq, Eq)]
pub enum CheckError {
    /// Memory ran out.
    Memory,
}

impl From<AllocError> for CheckError {
    fn from(_: AllocError) -> Self {
        CheckError::Memory
    }
}

/// How many lines each order has, where a condition asks for that.
fn counts_for(
    alloc: Global,
    c: Condition,
    s: &TableSet,
    rows: &[Row],
) -> Result<LineCounts, AllocError>
    requires { length s.now.tables ≡ 11 }
    ensures { IfOk result (λ counts. c ≡ Condition.OrderLines → CountsLines (number_of s.now SchemaTable.OrderLine) rows.now counts) }
{
    if c == Condition::OrderLines {
        count_lines(alloc, rows, s.number(SchemaTable::OrderLine))
    } else {
        Ok(BTreeMap::new(alloc))
    }
}

/// Whether a row passes the test of a condition. The counts are of the rows where the condition asks for them.
fn passes(c: Condition, s: &TableSet, rows: &[Row], counts: &LineCounts, row: &Row) -> bool
    requires whole { length s.now.tables ≡ 11 }
    requires order { IsInOrder rows.now }
    requires fits { SumsFit rows.now }
    requires counted { c ≡ Condition.OrderLines → CountsLines (number_of s.now SchemaTable.OrderLine) rows.now counts.now }
    ensures { result ≡ passes_test c s.now rows.now row.now }
{
    match c {
        Condition::WarehouseDistricts => districts_add_up(s, rows, row),
        Condition::LastOrders => last_order(s, rows, row),
        Condition::WaitingOrders => waiting_orders(s, rows, row),
        Condition::DistrictLines => district_lines(s, rows, row),
        Condition::Carriers => carriers(s, rows, row),
        Condition::OrderLines => order_lines(s, rows, counts, row),
        Condition::Dates => dates(s, rows, row),
        Condition::WarehousePayments | Condition::DistrictPayments => payments_add_up(s, rows, row),
    }
}

/// Whether a row shows that a condition is false.
fn is_wrong(c: Condition, s: &TableSet, rows: &[Row], counts: &LineCounts, row: &Row) -> bool
    requires whole { length s.now.tables ≡ 11 }
    requires order { IsInOrder rows.now }
    requires fits { SumsFit rows.now }
    requires counted { c ≡ Condition.OrderLines → CountsLines (number_of s.now SchemaTable.OrderLine) rows.now counts.now }
    ensures { result ≡ wrong c s.now rows.now row.now }
{
    row.table == s.number(c.table()) && !passes(c, s, rows, counts, row)
}

/// The first row that shows a condition to be false; it has the least key of those. The cost is a look-up a row of the condition's
/// table, by halving; condition 6 goes over the rows once more.
pub fn first_wrong<'a>(
    alloc: Global,
    c: Condition,
    s: &TableSet,
    rows: &'a [Row],
) -> Result<Option<&'a Row>, CheckError>
    requires whole { length s.now.tables ≡ 11 }
    requires order { IsInOrder rows.now }
    requires fits { SumsFit rows.now }
    ensures { IfOk result (λ found. option_copied found ≡ find (wrong c s.now rows.now) rows.now) }
{
    let counts = counts_for(alloc, c, s, rows)?;
    Ok(rows.iter().find(|row| is_wrong(c, s, rows, &counts, row)))
}

/// The key of the first row that shows the n-th condition to be false, and none exactly where the condition is true.
///
/// n is 1 to 9. The rows stand in order, so that the key is the least of those that show it.
pub fn condition(
    alloc: Global,
    s: &TableSet,
    n: u32,
    rows: &Plain,
) -> Result<Option<Key>, CheckError>
    requires whole { length s.now.tables ≡ 11 }
    requires from { 1 ≤ n }
    requires to { n ≤ 9 }
    requires order { IsInOrder rows.now.rows }
    requires fits { SumsFit rows.now.rows }
    ensures { IfOk result (λ found. found ≡ option_map (λ r. r.key)
        (find (wrong (get_or CONDITIONS (n - 1) Condition.WarehouseDistricts) s.now rows.now.rows) rows.now.rows)) }
{
    let c = CONDITIONS[n as usize - 1];
    match first_wrong(alloc, c, s, rows.rows.as_slice())? {
        Some(row) => Ok(Some(copied(&row.key)?)),
        None => Ok(None),
    }
}
