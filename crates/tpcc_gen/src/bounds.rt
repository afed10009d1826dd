//! How large a workload may be.

/// Warehouses, from 1.
pub const MOST_WAREHOUSES: u64 = 10;
/// Items, from 1.
pub const MOST_ITEMS: u64 = 100_000;
/// Customers of a district, from 1, and its first orders.
pub const MOST_CUSTOMERS: u64 = 3_000;
/// Transactions of a mix.
pub const MOST_TRANSACTIONS: u64 = 20_000;
/// The number that a mix is drawn from: 2^45.
pub const LARGEST_START: u64 = 1 << 45;
