//! The tables of TPC-C (clause 1.3 of the standard), and which tables of a design they are.
ghost use Rattle.std.specs.Prelude.{◌≡◌, ◌<◌, ◌^◌, length, map, get_or, Some, IfErr, IfOk};
ghost use Rattle.std.specs.Cmp.Lexicographic.{pointwise};
ghost use Rattle.std.specs.Prelude.{nat_eq};
ghost use Rattle.tpcc_tables.specs.declared.tables.SchemaError.TheVariants as schema_error;
ghost use Rattle.tpcc_tables.specs.Schema.{name_of, width_of, columns_of, place_of, texts, is_table as is, number_in, number_of, Refuses};
ghost use Rattle.tpcc_tables.specs.Schema.{IsSchemaOf};

use acc_base::designs::Design;
use acc_base::sequences::{Seq, Text};
use acc_base::tables::Table;
use std::alloc::{AllocError, Global};

/// A table of the schema.
#[derive(Clone, Copy, Debug, PartialEq, Eq)]
pub enum SchemaTable {
    Warehouse,
    District,
    Customer,
    /// The payments, by the district that took them.
    History,
    /// The same payments, by the customer who paid.
    CustomerHistory,
    NewOrder,
    Orders,
    /// The orders, by their customer.
    CustomerOrder,
    OrderLine,
    Item,
    Stock,
}

/// The tables of the schema, in order.
pub const SCHEMA: [SchemaTable; 11] = [
    SchemaTable::Warehouse,
    SchemaTable::District,
    SchemaTable::Customer,
    SchemaTable::History,
    SchemaTable::CustomerHistory,
    SchemaTable::NewOrder,
    SchemaTable::Orders,
    SchemaTable::CustomerOrder,
    SchemaTable::OrderLine,
    SchemaTable::Item,
    SchemaTable::Stock,
];

/// Why a design has no set of the schema's tables.
#[derive(Clone, Copy, Debug, PartialEq, Eq)]
pub enum SchemaError {
    /// The n-th table of the schema, counted from 1, isn't in the design with its name, width and columns; those before it are.
    Lacks(u32),
    /// Memory ran out, or a table stands past the 2^32-th.
    Memory,
}

impl From<AllocError> for SchemaError {
    ghost from_gives = { λ _ e. e ≡ schema_error.Memory };

    fn from(_: AllocError) -> Self {
        SchemaError::Memory
    }
}

/// The numbers of the schema's tables in a design, in the schema's order.
#[derive(Drop)]
pub struct TableSet {
    pub tables: Seq<u32>,
}

impl SchemaTable {
    /// Its place in the schema, from 0.
    fn place(self) -> usize
        ensures value { result ≡ place_of self }
        ensures below { result < 11 }
    {
        match self {
            SchemaTable::Warehouse => 0,
            SchemaTable::District => 1,
            SchemaTable::Customer => 2,
            SchemaTable::History => 3,
            SchemaTable::CustomerHistory => 4,
            SchemaTable::NewOrder => 5,
            SchemaTable::Orders => 6,
            SchemaTable::CustomerOrder => 7,
            SchemaTable::OrderLine => 8,
            SchemaTable::Item => 9,
            SchemaTable::Stock => 10,
        }
    }

    /// Its name.
    pub fn name(self) -> &'static [u8]
        ensures { result.now ≡ name_of self }
    {
        match self {
            SchemaTable::Warehouse => b"WAREHOUSE",
            SchemaTable::District => b"DISTRICT",
            SchemaTable::Customer => b"CUSTOMER",
            SchemaTable::History => b"HISTORY",
            SchemaTable::CustomerHistory => b"HCUST",
            SchemaTable::NewOrder => b"NEWORDER",
            SchemaTable::Orders => b"ORDERS",
            SchemaTable::CustomerOrder => b"CUSTORDER",
            SchemaTable::OrderLine => b"LINE",
            SchemaTable::Item => b"ITEM",
            SchemaTable::Stock => b"STOCK",
        }
    }

    /// How many parts its keys have.
    pub fn width(self) -> u32
        ensures { result ≡ width_of self }
    {
        match self {
            SchemaTable::Warehouse | SchemaTable::Item => 1,
            SchemaTable::District | SchemaTable::Stock => 2,
            SchemaTable::Customer
            | SchemaTable::History
            | SchemaTable::NewOrder
            | SchemaTable::Orders => 3,
            SchemaTable::CustomerHistory | SchemaTable::CustomerOrder => 4,
            SchemaTable::OrderLine => 5,
        }
    }

    /// The names of its columns.
    pub fn columns(self) -> &'static [&'static [u8]]
        ensures { texts result.now ≡ columns_of self }
    {
        match self {
            SchemaTable::Warehouse => &[b"ytd", b"tax"],
            SchemaTable::District => &[b"ytd", b"tax", b"nxt", b"low"],
            SchemaTable::Customer => &[b"bal", b"paid", b"pays", b"dels", b"disc"],
            SchemaTable::History | SchemaTable::CustomerHistory => &[b"amt"],
            SchemaTable::NewOrder | SchemaTable::CustomerOrder => &[],
            SchemaTable::Orders => &[b"c", b"carrier", b"cnt", b"entered", b"owner", b"agent"],
            SchemaTable::OrderLine => &[b"item", b"supply", b"qty", b"amt", b"date", b"delta"],
            SchemaTable::Item => &[b"price"],
            SchemaTable::Stock => &[b"qty", b"ytd", b"cnt", b"remote"],
        }
    }
}

/// Whether columns have these names, in order.
fn are_named(cols: &[Text], names: &[&[u8]]) -> bool
    ensures { result ≡ pointwise (pointwise nat_eq) cols.now (texts names.now) }
{
    match (cols.split_first(), names.split_first()) {
        (Some((col, cols)), Some((name, names))) => {
            col.as_slice() == *name && are_named(cols, names)
        }
        (None, None) => true,
        (Some(_), None) | (None, Some(_)) => false,
    }
}

/// Whether a table of a design is one of the schema: its name, width and columns are.
fn is_table(wanted: SchemaTable, table: &Table) -> bool
    ensures { result ≡ is wanted table.now }
{
    table.name.as_slice() == wanted.name()
        && table.width == wanted.width()
        && are_named(table.cols.as_slice(), wanted.columns())
}

/// The place of a table of the schema among those of a design.
fn find(tables: &[Table], wanted: SchemaTable) -> Option<usize>
    ensures { result ≡ number_in tables.now wanted }
{
    tables.iter().position(|table| is_table(wanted, table))
}

/// The place of one of these tables of the schema among those of a design.
fn find_at(tables: &[Table], schema: &[SchemaTable], at: usize) -> Option<usize>
    requires { at < length schema.now }
    ensures { result ≡ number_in tables.now (get_or schema.now at SchemaTable.Warehouse) }
{
    find(tables, schema[at])
}

/// The numbers of tables of the schema among those of a design, in order.
fn numbers_in(
    alloc: Global,
    tables: &[Table],
    schema: &[SchemaTable],
) -> Result<Seq<u32>, SchemaError>
    requires { length schema.now < 2 ^ 32 }
    ensures ok { IfOk result (λ ns. map Some ns ≡ map (number_in tables.now) schema.now) }
    ensures lacks { IfErr result (Refuses tables.now schema.now) }
{
    let mut numbers = Seq::new(alloc);
    for at in 0..schema.len() {
        let Some(place) = find_at(tables, schema, at) else {
            return Err(SchemaError::Lacks(numbers.len() as u32 + 1));
        };
        let Ok(number) = u32::try_from(place) else {
            return Err(SchemaError::Memory);
        };
        numbers.push(number)?;
    }
    Ok(numbers)
}

/// The numbers of the schema's tables in a design.
pub fn schema(alloc: Global, d: &Design) -> Result<TableSet, SchemaError>
    ensures ok { IfOk result (λ s. IsSchemaOf s d.now) }
    ensures lacks { IfErr result (Refuses d.now.tables SCHEMA) }
{
    match numbers_in(alloc, d.tables.as_slice(), &SCHEMA) {
        Ok(tables) => Ok(TableSet { tables }),
        Err(error) => Err(error),
    }
}

impl TableSet {
    /// The number of a table of the schema.
    pub fn number(&self, table: SchemaTable) -> u32
        requires { length self.now.tables ≡ 11 }
        ensures { result ≡ number_of self.now table }
    {
        self.tables.as_slice()[table.place()]
    }
}
