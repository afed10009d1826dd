//! What the next turn of a transaction changes.
ghost use Rattle.std.specs.Prelude.{◌≡◌, ◌≤◌, ◌<◌, ◌^◌, ◌+◌, false, slice_get, Some, None, IfOk, IsSome, map, MatchOption};
ghost use Rattle.acc_base.specs.Linear.{var};
ghost use Rattle.acc_base.specs.Tables.{IsInOrder};
ghost use Rattle.acc_base.specs.Machine.{limit_of, is_asked, returns_of, forward_to, back_to};
ghost use Rattle.acc_base.specs.Turns.{next_event};
ghost use Rattle.acc_base.specs.Runnable.{IsRunnable, IsSmallFrame};
ghost use Rattle.acc_base.specs.declared.machines.Outcome.TheVariants.{Committed};
ghost use Rattle.acc_base.specs.declared.machines.Transaction.TheVariants.{Forward, Undoing};
ghost use Rattle.acc_store.specs.Bounds.{AreWithin};
ghost use Rattle.acc_plain.specs.Ahead.{reading_of, ahead_of, IsAhead};
ghost use Rattle.acc_plain.specs.Change.{IsStepChange, IsBackChange, IsNextChange};

use acc_base::bounds::LARGEST_SUM;
use acc_base::designs::{Design, Side};
use acc_base::machines::{Cause, Event, Frame, Outcome, Reply, Transaction};
use acc_base::sequences::Seq;
use acc_base::steps::Target;
use acc_step::{StepEffect, StepError, effect};
use acc_store::{Store, Write};
use std::alloc::{AllocError, AllocFailed, Global};

/// Why a turn isn't made.
#[derive(Clone, Copy)]
pub enum PlainError {
    /// Memory ran out; the machine is as before.
    Memory,
}

impl<T: Drop> From<AllocFailed<T>> for PlainError {
    fn from(_: AllocFailed<T>) -> Self {
        PlainError::Memory
    }
}

impl From<AllocError> for PlainError {
    fn from(_: AllocError) -> Self {
        PlainError::Memory
    }
}

/// A point with the locals, the place on the tape and the number of forward steps there.
#[derive(Drop)]
pub struct Standing {
    pub point: u32,
    pub locals: Seq<i64>,
    pub pos: u32,
    pub steps: u32,
}

/// What becomes of a transaction.
#[derive(Drop)]
pub enum Becomes {
    /// It is undone from here on.
    Turns(Cause),
    /// It goes on from a point.
    Stands(Standing),
    /// It has ended.
    Ends(Reply),
}

/// An event, what it writes, and what becomes of its transaction.
#[derive(Drop)]
pub struct Change {
    pub event: Event,
    pub writes: Seq<Write>,
    pub becomes: Becomes,
}

/// What lies ahead of a forward transaction.
#[derive(Drop)]
pub enum Ahead {
    /// It turns for this cause.
    Stops(Cause),
    /// It takes its step.
    Goes(StepEffect),
}

/// The most forward steps of a frame's type.
pub fn limit_of(d: &Design, f: &Frame) -> u32
    ensures { result ≡ limit_of (slice_get d.now.types f.now.ty) }
{
    match d.types.as_slice().get(f.ty as usize) {
        Some(x) => x.limit,
        None => 0,
    }
}

/// Whether the frame was asked to turn ahead of this step.
pub fn is_asked(f: &Frame) -> bool
    ensures { result ≡ is_asked f.now.ask f.now.steps }
{
    match f.ask {
        Some(steps) => steps == f.steps,
        None => false,
    }
}

/// A step, or its refusal.
fn unless_refused(e: StepEffect) -> Ahead
    ensures { result ≡ ahead_of e e.target }
{
    match e.target {
        Target::Refuse(n) => Ahead::Stops(Cause::Refused(n)),
        Target::Point(_) | Target::Commit | Target::Undone => Ahead::Goes(e),
    }
}

/// What the step of a forward frame does, where it was not asked to turn and has steps left.
fn step_ahead<S: Store>(alloc: Global, d: &Design, f: &Frame, s: &S) -> Result<Ahead, PlainError>
    requires runnable { IsRunnable d.now }
    requires fits { IsSmallFrame f.now }
    requires order { IsInOrder (S.rows s.now) }
    requires within { AreWithin LARGEST_SUM (S.rows s.now) }
    requires unasked { is_asked f.now.ask f.now.steps ≡ false }
    requires left { f.now.steps < limit_of (slice_get d.now.types f.now.ty) }
    requires room { f.now.steps + 1 < 2 ^ 32 }
    ensures { IfOk result (IsAhead d.now (S.rows s.now) f.now) }
{
    match effect(alloc, d, f, Side::Next, s) {
        Ok(e) => Ok(unless_refused(e)),
        Err(StepError::Range) => Ok(Ahead::Stops(Cause::Range)),
        Err(StepError::Memory) => Err(PlainError::Memory),
    }
}

/// What lies ahead of a forward frame.
fn look_ahead<S: Store>(alloc: Global, d: &Design, f: &Frame, s: &S) -> Result<Ahead, PlainError>
    requires runnable { IsRunnable d.now }
    requires fits { IsSmallFrame f.now }
    requires order { IsInOrder (S.rows s.now) }
    requires within { AreWithin LARGEST_SUM (S.rows s.now) }
    ensures { IfOk result (IsAhead d.now (S.rows s.now) f.now) }
{
    if is_asked(f) {
        return Ok(Ahead::Stops(Cause::Asked));
    }
    if f.steps >= limit_of(d, f) {
        return Ok(Ahead::Stops(Cause::Limit));
    }
    step_ahead(alloc, d, f, s)
}

/// A value of a local, which is 0 past the last.
fn value_of(locals: &[i64], x: u32) -> i64
    ensures { result ≡ var locals.now x }
{
    match locals.get(x as usize) {
        Some(value) => *value,
        None => 0,
    }
}

/// The values that a transaction of this type returns.
fn values(alloc: Global, locals: &[i64], returns: &[u32]) -> Result<Vec<i64>, AllocError>
    ensures { IfOk result (λ v. v.items ≡ map (var locals.now) returns.now) }
{
    returns.iter().map(|x| value_of(locals, *x)).collect(alloc)
}

/// The locals that a frame's type returns.
fn returns<'a>(d: &'a Design, f: &Frame) -> &'a [u32]
    ensures { result.now ≡ returns_of (slice_get d.now.types f.now.ty) }
{
    match d.types.as_slice().get(f.ty as usize) {
        Some(x) => x.returns.as_slice(),
        None => &[],
    }
}

/// A frame's reply, where it commits with these locals.
fn committed(alloc: Global, d: &Design, f: &Frame, locals: &[i64]) -> Result<Reply, AllocError>
    ensures { IfOk result (λ reply. reply ≡ record {
      t = f.now.t;
      outcome = Committed (map (var locals.now) (returns_of (slice_get d.now.types f.now.ty)));
    }) }
{
    let values = values(alloc, locals, returns(d, f))?;
    Ok(Reply {
        t: f.t,
        outcome: Outcome::Committed(Seq::from_vec(values)),
    })
}

/// What a forward step with this effect changes.
fn step_change(alloc: Global, d: &Design, f: &Frame, e: StepEffect) -> Result<Change, AllocError>
    requires ends { IsSome (forward_to d.now f.now (reading_of e) e.target) }
    requires room { f.now.steps + 1 < 2 ^ 32 }
    ensures { IfOk result (IsStepChange d.now f.now e) }
{
    let StepEffect {
        locals,
        pos,
        path: _,
        writes,
        target,
    } = e;
    let becomes = match target {
        Target::Point(point) => Becomes::Stands(Standing {
            point,
            locals,
            pos,
            steps: f.steps + 1,
        }),
        Target::Commit => Becomes::Ends(committed(alloc, d, f, locals.as_slice())?),
        Target::Undone | Target::Refuse(_) => unreachable!(),
    };
    Ok(Change {
        event: Event::Step(f.t),
        writes,
        becomes,
    })
}

/// What the next turn of a forward frame changes.
pub fn forward_change<S: Store>(
    alloc: Global,
    d: &Design,
    f: &Frame,
    s: &S,
) -> Result<Change, PlainError>
    requires runnable { IsRunnable d.now }
    requires fits { IsSmallFrame f.now }
    requires order { IsInOrder (S.rows s.now) }
    requires within { AreWithin LARGEST_SUM (S.rows s.now) }
    ensures { IfOk result (IsNextChange d.now (S.rows s.now) (Forward f.now)) }
{
    match look_ahead(alloc, d, f, s)? {
        Ahead::Stops(cause) => Ok(Change {
            event: Event::Abort(f.t, cause),
            writes: Seq::new(alloc),
            becomes: Becomes::Turns(cause),
        }),
        Ahead::Goes(e) => Ok(step_change(alloc, d, f, e)?),
    }
}

/// What an undo step with this effect changes.
fn back_change(f: &Frame, cause: Cause, e: StepEffect) -> Change
    requires ends { IsSome (back_to f.now cause (reading_of e) e.target) }
    ensures { IsBackChange f.now cause e result }
{
    let StepEffect {
        locals,
        pos,
        path: _,
        writes,
        target,
    } = e;
    let becomes = match target {
        Target::Point(point) => Becomes::Stands(Standing {
            point,
            locals,
            pos,
            steps: f.steps,
        }),
        Target::Undone => Becomes::Ends(Reply {
            t: f.t,
            outcome: Outcome::Compensated(cause),
        }),
        Target::Commit | Target::Refuse(_) => unreachable!(),
    };
    Change {
        event: Event::Undo(f.t),
        writes,
        becomes,
    }
}

/// What the next turn of a frame on its way back changes; nothing where a number of its step leaves the range.
pub fn undo_change<S: Store>(
    alloc: Global,
    d: &Design,
    f: &Frame,
    cause: Cause,
    s: &S,
) -> Result<Option<Change>, PlainError>
    requires runnable { IsRunnable d.now }
    requires fits { IsSmallFrame f.now }
    requires order { IsInOrder (S.rows s.now) }
    requires within { AreWithin LARGEST_SUM (S.rows s.now) }
    ensures { IfOk result (λ c. MatchOption c (next_event d.now (S.rows s.now) (Some (Undoing f.now cause)) ≡ None)
        (IsNextChange d.now (S.rows s.now) (Undoing f.now cause))) }
{
    match effect(alloc, d, f, Side::Undo, s) {
        Ok(e) => Ok(Some(back_change(f, cause, e))),
        Err(StepError::Range) => Ok(None),
        Err(StepError::Memory) => Err(PlainError::Memory),
    }
}
