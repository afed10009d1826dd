//! The scale of a workload.
ghost use Rattle.tpcc_gen.specs.Bounds.{IsScale};

/// How many warehouses and items there are, and customers of each district.
#[derive(Clone, Copy)]
pub struct Scale {
    pub warehouses: u64,
    pub items: u64,
    pub customers: u64,
    ghost within: { IsScale warehouses items customers },
}
