//! What the refusals of a design say by themselves.
ghost use Rattle.acc_accept.specs.Laws.{NoneIsBoth, RefusedForOneReason};

/// No design is both accepted and refused with a certificate, but for want of memory.
pub fn none_is_both()
    ensures { NoneIsBoth }
{}

/// A design is refused with a certificate for one reason, beside want of memory.
pub fn refused_for_one_reason()
    ensures { RefusedForOneReason }
{}
