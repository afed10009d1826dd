//! What the shipped design keeps.
ghost use Rattle.tpcc_steps.specs.Law.{ShippedKeepsConditions};

/// Where the assertions of the shipped design are true of rows, and no transaction is unfinished, the conditions 1 to 9 are true.
pub fn idle_keeps_conditions()
    ensures { ShippedKeepsConditions }
{}
