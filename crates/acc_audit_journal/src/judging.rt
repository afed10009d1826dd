//! The judgement of a journal.
ghost use Rattle.std.specs.Prelude.{◌≡◌, ◌<◌, ◌^◌, length};
ghost use Rattle.acc_formed.specs.WellFormed.{IsWellFormed};
ghost use Rattle.acc_audit_journal.specs.Judging.{judged_by, Judges, JudgesMeaning, IsKindToSound};

use crate::journals::{JudgeError, Judgement, is_of, journal_of};
use acc_audit::{AuditError, AuditFinding, audit};
use acc_base::designs::Design;
use acc_progress::Progress;
use std::alloc::Global;

/// What is told of so many events, by what their audit tells.
fn judged(events: u64, told: Result<AuditFinding, AuditError>) -> Result<Judgement, JudgeError>
    ensures { result ≡ judged_by events told }
{
    match told {
        Ok(AuditFinding::Clean) => Ok(Judgement::Clean(events)),
        Ok(AuditFinding::False(place, t, clause, values)) => {
            Ok(Judgement::False(place, t, clause, values))
        }
        Err(AuditError::Large(place, t, clause)) => Ok(Judgement::Large(place, t, clause)),
        Err(AuditError::NotRun(at)) => Err(JudgeError::NotRun(at)),
        Err(AuditError::Memory) => Err(JudgeError::Memory),
    }
}

/// Judges a journal by a design: its bytes count events behind the design's printed text, and these are audited, one after the other.
///
/// The refusals come in this order: `Journal` where the bytes aren't a journal's, `OtherDesign` where its base text isn't the design's
/// printed text, and `NotRun` with the first event that the design's machine doesn't allow, unless a clause is found false, or can't be
/// told of, before it. `Memory` may come at any time; it says nothing of the bytes.
///
/// How far the audit is, is told behind each event.
///
/// No certificate is asked for. Where the design is sound and the events are lawful, the answer is never `False` or `NotRun`.
pub fn judge<P: Progress>(
    alloc: Global,
    d: &Design,
    bytes: &[u8],
    progress: &mut P,
) -> Result<Judgement, JudgeError>
    requires formed { IsWellFormed d.now }
    requires short { length bytes.now < 2 ^ 30 }
    ensures exact { Judges d.now bytes.now result }
    ensures meaning { JudgesMeaning d.now bytes.now result }
    ensures sound { IsKindToSound d.now bytes.now result }
{
    let journal = journal_of(alloc, bytes)?;
    if !is_of(alloc, d, journal.base.as_slice())? {
        return Err(JudgeError::OtherDesign);
    }
    let events = journal.events.as_slice();
    judged(events.len() as u64, audit(alloc, d, events, progress))
}
