//! How large a workload of TPC-C is.
ghost use Rattle.std.specs.Prelude.{◌≡◌};
ghost use Rattle.acc_commands_inputs.specs.Scales.{is_scale, is_mix};

use tpcc_gen::{LARGEST_START, MOST_CUSTOMERS, MOST_ITEMS, MOST_TRANSACTIONS, MOST_WAREHOUSES};

/// How many warehouses, items, and customers of each district there are.
#[derive(Clone, Copy)]
pub struct AskedScale {
    pub warehouses: u64,
    pub items: u64,
    pub customers: u64,
}

impl AskedScale {
    /// Whether a load may be so large: 1 to 10 warehouses, 1 to 100,000 items, and 1 to 3,000 customers of each district.
    pub fn is_fit(self) -> bool
        ensures { result ≡ is_scale self }
    {
        (1..=MOST_WAREHOUSES).contains(&self.warehouses)
            && (1..=MOST_ITEMS).contains(&self.items)
            && (1..=MOST_CUSTOMERS).contains(&self.customers)
    }
}

/// The transactions of a mix: over which scale, how many, and the number that they are drawn from.
#[derive(Clone, Copy)]
pub struct Mix {
    pub scale: AskedScale,
    pub count: u64,
    pub start: u64,
}

impl Mix {
    /// Whether a mix may be so large: over a load that may, 0 to 20,000 transactions, drawn from a number up to 2^45.
    pub fn is_fit(self) -> bool
        ensures { result ≡ is_mix self }
    {
        self.scale.is_fit() && self.count <= MOST_TRANSACTIONS && self.start <= LARGEST_START
    }
}
