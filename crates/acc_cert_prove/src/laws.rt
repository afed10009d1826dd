//! What the definitions say by themselves.
ghost use Rattle.acc_cert_prove.specs.Laws.{ProvedOnce, PointsMeetLeaves};

/// Of a design one thing is told, but for which proofs its certificate has.
pub fn proved_once()
    ensures { ProvedOnce }
{}

/// The point of a line meets all that is known in an open leaf of the obligation's search.
pub fn points_meet_leaves()
    ensures { PointsMeetLeaves }
{}
