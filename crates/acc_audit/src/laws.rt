//! What the definitions say by themselves.
ghost use Rattle.acc_audit.specs.Audits.{TellsOne};

/// An audit tells one thing of a list of events, unless memory ran out: one lowest place, and there one clause with one tuple of values.
/// So each answer comes exactly where its cause stands.
pub fn audits_tell_one()
    ensures { TellsOne }
{}
