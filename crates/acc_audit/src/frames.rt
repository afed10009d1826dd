//! The first complaint about the assertions in a state.
ghost use Rattle.std.specs.Prelude.{◌≡◌, ◌<◌, ◌^◌, length, [], All, IfOk, IfSome, option_copied};
ghost use Rattle.acc_base.specs.Assertions.{clauses_of};
ghost use Rattle.acc_base.specs.Effects.{point_of};
ghost use Rattle.acc_base.specs.Linear.{variables};
ghost use Rattle.acc_base.specs.Runnable.{IsSmallFrame};
ghost use Rattle.acc_formed.specs.WellFormed.{IsWellFormed};
ghost use Rattle.acc_audit_trial.specs.Trials.{AreKeyed, CanTry};
ghost use Rattle.acc_audit_complaints.specs.Complaints.{IsFirst, IsShort};
ghost use Rattle.acc_audit_complaints.specs.Since.{WasClear};
ghost use Rattle.acc_audit.specs.Audits.{IsFirstAmong, IsFirstIn};
ghost use Rattle.acc_audit.specs.Since.{IsKnown, writes_in, writes_for};

use acc_audit_complaints::{Complaint, first_complaint, first_complaint_since};
use acc_audit_ranges::KeyedStore;
use acc_base::designs::Design;
use acc_base::forms::Clause;
use acc_base::machines::Frame;
use acc_store::{Store, Write};
use std::alloc::{AllocError, Global};

/// What is known of the state before an event: nothing was wrong there.
#[derive(Clone, Copy)]
pub struct KnownBefore<'a> {
    /// What the event wrote.
    pub writes: &'a [Write],
    /// The number of the transaction that it began or moved.
    pub moved: u64,
}

/// The assertion of a frame's point: its clauses.
fn clauses_at<'a>(d: &'a Design, frame: &Frame) -> &'a [Clause]
    ensures { result.now ≡ clauses_of (point_of d.now frame.now.ty frame.now.point) }
{
    match d.point(frame.at()) {
        Some(point) => point.clauses.as_slice(),
        None => &[],
    }
}

/// A frame's locals and number.
fn values_of(alloc: Global, frame: &Frame) -> Result<Vec<i64>, AllocError>
    requires small { IsSmallFrame frame.now }
    ensures { IfOk result (λ values. values.items ≡ variables frame.now.t frame.now.locals) }
{
    let mut values = Vec::from_slice(alloc, frame.locals.as_slice())?;
    values.push(frame.t as i64)?;
    Ok(values)
}

/// The first complaint about clauses, with which maybe nothing was wrong before some writes.
fn clauses_complaint<S: Store>(
    alloc: Global,
    s: &KeyedStore<S>,
    clauses: &[Clause],
    outside: &[i64],
    since: Option<&[Write]>,
) -> Result<Option<(u32, Complaint)>, AllocError>
    requires keyed { AreKeyed s.now }
    requires can { All CanTry clauses.now }
    requires short { All (IsShort outside.now) clauses.now }
    requires few { length clauses.now < 2 ^ 32 }
    requires since { IfSome (option_copied since) (λ writes. All (WasClear writes s.now outside.now) clauses.now) }
    ensures { IfOk result (IsFirst s.now outside.now clauses.now) }
{
    match since {
        Some(writes) => first_complaint_since(alloc, s, clauses, outside, writes),
        None => first_complaint(alloc, s, clauses, outside),
    }
}

/// The writes since nothing was wrong with what is asserted at all times, if that is known.
fn writes_in<'a>(known: Option<KnownBefore<'a>>) -> Option<&'a [Write]>
    ensures { option_copied result ≡ writes_in known.entry }
{
    match known {
        Some(known) => Some(known.writes),
        None => None,
    }
}

/// The writes since nothing was wrong with what a transaction asserts, if that is known.
fn writes_for<'a>(t: u64, known: Option<KnownBefore<'a>>) -> Option<&'a [Write]>
    ensures { option_copied result ≡ writes_for t known.entry }
{
    match known {
        Some(known) => {
            if known.moved == t {
                None
            } else {
                Some(known.writes)
            }
        }
        None => None,
    }
}

/// The first complaint about the assertion of a frame's point.
fn frame_complaint<S: Store>(
    alloc: Global,
    d: &Design,
    s: &KeyedStore<S>,
    frame: &Frame,
    since: Option<&[Write]>,
) -> Result<Option<(u32, Complaint)>, AllocError>
    requires formed { IsWellFormed d.now }
    requires keyed { AreKeyed s.now }
    requires small { IsSmallFrame frame.now }
    requires since { IfSome (option_copied since) (λ writes. All (WasClear writes s.now (variables frame.now.t frame.now.locals))
        (clauses_of (point_of d.now frame.now.ty frame.now.point))) }
    ensures { IfOk result (IsFirst s.now (variables frame.now.t frame.now.locals)
        (clauses_of (point_of d.now frame.now.ty frame.now.point))) }
{
    let values = values_of(alloc, frame)?;
    clauses_complaint(alloc, s, clauses_at(d, frame), &values, since)
}

/// The first complaint about the assertions of frames, with the frame's number.
fn frames_complaint<S: Store>(
    alloc: Global,
    d: &Design,
    s: &KeyedStore<S>,
    frames: &[Frame],
    known: Option<KnownBefore<'_>>,
) -> Result<Option<(u64, u32, Complaint)>, AllocError>
    requires formed { IsWellFormed d.now }
    requires keyed { AreKeyed s.now }
    requires small { All IsSmallFrame frames.now }
    requires known { IsKnown d.now s.now frames.now known }
    ensures { IfOk result (IsFirstAmong d.now s.now frames.now) }
{
    for frame in frames {
        let since = writes_for(frame.t, known);
        if let Some((clause, complaint)) = frame_complaint(alloc, d, s, frame, since)? {
            return Ok(Some((frame.t, clause, complaint)));
        }
    }
    Ok(None)
}

/// The first complaint about what a design asserts at all times.
fn always_complaint<S: Store>(
    alloc: Global,
    d: &Design,
    s: &KeyedStore<S>,
    since: Option<&[Write]>,
) -> Result<Option<(u32, Complaint)>, AllocError>
    requires formed { IsWellFormed d.now }
    requires keyed { AreKeyed s.now }
    requires since { IfSome (option_copied since) (λ writes. All (WasClear writes s.now []) d.now.always) }
    ensures { IfOk result (IsFirst s.now [] d.now.always) }
{
    clauses_complaint(alloc, s, d.always.as_slice(), &[], since)
}

/// The first complaint in a state: about what is asserted at all times, with the number 0, and then about the frames.
pub fn state_complaint<S: Store>(
    alloc: Global,
    d: &Design,
    s: &KeyedStore<S>,
    frames: &[Frame],
    known: Option<KnownBefore<'_>>,
) -> Result<Option<(u64, u32, Complaint)>, AllocError>
    requires formed { IsWellFormed d.now }
    requires keyed { AreKeyed s.now }
    requires small { All IsSmallFrame frames.now }
    requires known { IsKnown d.now s.now frames.now known }
    ensures { IfOk result (IsFirstIn d.now s.now frames.now) }
{
    if let Some((clause, complaint)) = always_complaint(alloc, d, s, writes_in(known))? {
        return Ok(Some((0, clause, complaint)));
    }
    frames_complaint(alloc, d, s, frames, known)
}
