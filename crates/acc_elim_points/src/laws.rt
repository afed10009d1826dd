//! What the false constant shows that ends a search for a point.
ghost use Rattle.acc_elim_points.specs.FalseConstants.{FalseConstantRefutes};

/// Where a search for a point ends with a false constant, that is the sum of its multiples of the relations, whatever the unknowns
/// are worth; no inequality has a multiplier below 0, the places rise, each is one of a relation, and no multiplier is 0 or beyond 2^120 on
/// either side of 0.
pub fn a_false_constant_refutes()
    ensures { FalseConstantRefutes }
{}
