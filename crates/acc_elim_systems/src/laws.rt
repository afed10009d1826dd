//! What the multipliers of a false constant show.
ghost use Rattle.acc_elim_systems.specs.Made.{FalseConstantIsASum, MultipliersAreSigned, MultipliersRise};

/// The false constant that ends an elimination is the sum of its multiples of the relations that the elimination began with.
pub fn a_false_constant_is_a_sum()
    ensures { FalseConstantIsASum }
{}

/// The multiplier of an inequality isn't below 0.
pub fn multipliers_are_signed()
    ensures { MultipliersAreSigned }
{}

/// The places of multipliers rise.
pub fn multipliers_rise()
    ensures { MultipliersRise }
{}
