//! The consistency conditions of TPC-C (clause 3.3.2 of the standard).
ghost use Rattle.std.specs.Prelude.{◌≡◌};
ghost use Rattle.tpcc_tables.specs.Conditions.{table_of};

use crate::tables::SchemaTable;

/// A condition on the rows of a database of TPC-C.
#[derive(Clone, Copy, Debug, PartialEq, Eq)]
pub enum Condition {
    /// 1: what a warehouse took is what its districts took.
    WarehouseDistricts,
    /// 2: the order before a district's next is its last, and where orders wait to be delivered it is the last of those.
    LastOrders,
    /// 3: where orders of a district wait, as many do as there are numbers from the first to the last of them.
    WaitingOrders,
    /// 4: the orders of a district have as many lines as they say, together.
    DistrictLines,
    /// 5: an order has no carrier exactly where it waits.
    Carriers,
    /// 6: an order has as many lines as it says.
    OrderLines,
    /// 7: a line has no date exactly where its order has no carrier.
    Dates,
    /// 8: what a warehouse took is what its payments were.
    WarehousePayments,
    /// 9: what a district took is what its payments were.
    DistrictPayments,
}

/// The conditions, in the standard's order.
pub const CONDITIONS: [Condition; 9] = [
    Condition::WarehouseDistricts,
    Condition::LastOrders,
    Condition::WaitingOrders,
    Condition::DistrictLines,
    Condition::Carriers,
    Condition::OrderLines,
    Condition::Dates,
    Condition::WarehousePayments,
    Condition::DistrictPayments,
];

impl Condition {
    /// The table that it speaks of.
    pub fn table(self) -> SchemaTable
        ensures { result ≡ table_of self }
    {
        match self {
            Condition::WarehouseDistricts | Condition::WarehousePayments => SchemaTable::Warehouse,
            Condition::LastOrders
            | Condition::WaitingOrders
            | Condition::DistrictLines
            | Condition::DistrictPayments => SchemaTable::District,
            Condition::Carriers | Condition::OrderLines => SchemaTable::Orders,
            Condition::Dates => SchemaTable::OrderLine,
        }
    }
}
