//! What the end of a search shows.
ghost use Rattle.acc_prover_searched.specs.Courses.{NodesAreAProof, NodesAreNear, OpenLeafIsMet};

/// The nodes with which the course of a search ends are a proof of the sequent.
pub fn nodes_are_a_proof()
    ensures { NodesAreAProof }
{}

/// The numbers of these nodes that may have more than 64 bits, those of a split's form and multipliers, are within 2^120 of 0.
pub fn nodes_are_near()
    ensures { NodesAreNear }
{}

/// An open leaf begins with what is known at first, each split is decided in it, it has the relation of each instance whose guards are
/// true at its point, and the point meets all of it.
pub fn an_open_leaf_is_met()
    ensures { OpenLeafIsMet }
{}
