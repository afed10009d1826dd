//! What the definitions say by themselves.
ghost use Rattle.acc_base.specs.declared.designs.Design.{Design};
ghost use Rattle.acc_advise.specs.declared.advice.Question.{Question};
ghost use Rattle.acc_advise.specs.Laws.{EntriesLeaveOthers, EntriesLeaveWidths, KnownStays, TriesOwn};

/// The numbers of the obligations that a step spares a held point don't depend on the pairs of an entry.
pub fn entries_leave_widths()
    ensures { EntriesLeaveWidths }
{}

/// The obligations that are tried are those of the design that come from the step, as ones that spare the held point: each of them, and
/// no other.
pub fn own_obligations()
    ensures { (d : Design) (q : Question) → TriesOwn d q }
{}

/// An entry for what is asked changes no obligation that comes from elsewhere.
pub fn entries_leave_others()
    ensures { EntriesLeaveOthers }
{}

/// What stops a pair beside a set depends on the set alone: where the set hasn't grown, to try the pair again would tell the same.
pub fn known_stays()
    ensures { KnownStays }
{}
