//! What an event that the machine is given changes, if it is allowed.
ghost use Rattle.std.specs.Prelude.{◌≡◌, ◌^◌, Some, None, IfOk, IfSome, MatchOption};
ghost use Rattle.acc_base.specs.Tables.{IsInOrder};
ghost use Rattle.acc_base.specs.Machine.{frame_in, changed};
ghost use Rattle.acc_base.specs.Runnable.{IsRunnable, IsSmallFrame};
ghost use Rattle.acc_base.specs.declared.machines.Event.TheVariants.{Step, Abort};
ghost use Rattle.acc_base.specs.declared.machines.Transaction.TheVariants.{Forward};
ghost use Rattle.acc_store.specs.Bounds.{AreWithin};
ghost use Rattle.acc_plain.specs.Kept.{transaction_of};
ghost use Rattle.acc_plain.specs.Taken.{IsOf, IsChangeBy, if_step, if_abort};

use crate::changes::{Becomes, Change, PlainError, forward_change, undo_change};
use crate::transactions::TransactionRef;
use acc_base::bounds::LARGEST_SUM;
use acc_base::designs::Design;
use acc_base::machines::{Cause, Event, Frame};
use acc_base::sequences::Seq;
use acc_store::Store;
use std::alloc::Global;

/// A change, if it is that of a step.
fn if_step(change: Change) -> Option<Change>
    ensures { result ≡ if_step change change.event }
{
    match change.event {
        Event::Step(_) => Some(change),
        Event::Begin(_) | Event::Abort(_, _) | Event::Undo(_) => None,
    }
}

/// A change, if it is that of an abort for this cause.
fn if_abort(cause: Cause, change: Change) -> Option<Change>
    ensures { result ≡ if_abort cause change change.event }
{
    match change.event {
        Event::Abort(_, stop) if cause == stop => Some(change),
        Event::Begin(_) | Event::Step(_) | Event::Abort(_, _) | Event::Undo(_) => None,
    }
}

/// What a step of a forward frame changes, if nothing stops it.
fn change_by_step<S: Store>(
    alloc: Global,
    d: &Design,
    f: &Frame,
    s: &S,
) -> Result<Option<Change>, PlainError>
    requires runnable { IsRunnable d.now }
    requires fits { IsSmallFrame f.now }
    requires order { IsInOrder (S.rows s.now) }
    requires within { AreWithin LARGEST_SUM (S.rows s.now) }
    ensures { IfOk result (λ c. MatchOption c (changed d.now (S.rows s.now) (Step f.now.t) (Some (Forward f.now)) ≡ None)
        (IsChangeBy d.now (S.rows s.now) (Forward f.now) (Step f.now.t))) }
{
    Ok(if_step(forward_change(alloc, d, f, s)?))
}

/// What an abort of a forward frame changes, if it may turn for this cause.
fn change_by_abort<S: Store>(
    alloc: Global,
    d: &Design,
    f: &Frame,
    cause: Cause,
    s: &S,
) -> Result<Option<Change>, PlainError>
    requires runnable { IsRunnable d.now }
    requires fits { IsSmallFrame f.now }
    requires order { IsInOrder (S.rows s.now) }
    requires within { AreWithin LARGEST_SUM (S.rows s.now) }
    ensures { IfOk result (λ c. MatchOption c (changed d.now (S.rows s.now) (Abort f.now.t cause) (Some (Forward f.now)) ≡ None)
        (IsChangeBy d.now (S.rows s.now) (Forward f.now) (Abort f.now.t cause))) }
{
    match cause {
        Cause::Victim | Cause::Crash => Ok(Some(Change {
            event: Event::Abort(f.t, cause),
            writes: Seq::new(alloc),
            becomes: Becomes::Turns(cause),
        })),
        Cause::Refused(_) | Cause::Range | Cause::Limit | Cause::Asked => {
            Ok(if_abort(cause, forward_change(alloc, d, f, s)?))
        }
    }
}

/// What an event of a transaction changes, if it is allowed.
pub fn change_by<S: Store>(
    alloc: Global,
    d: &Design,
    event: &Event,
    x: TransactionRef,
    s: &S,
) -> Result<Option<Change>, PlainError>
    requires runnable { IsRunnable d.now }
    requires of { IsOf (transaction_of x) event.now }
    requires fits { IfSome (frame_in (transaction_of x)) IsSmallFrame }
    requires order { IsInOrder (S.rows s.now) }
    requires within { AreWithin LARGEST_SUM (S.rows s.now) }
    ensures { IfOk result (λ c. MatchOption c (changed d.now (S.rows s.now) event.now (Some (transaction_of x.entry)) ≡ None)
        (IsChangeBy d.now (S.rows s.now) (transaction_of x.entry) event.now)) }
{
    match (event, x) {
        (Event::Step(_), TransactionRef::Forward(f)) => change_by_step(alloc, d, f, s),
        (Event::Abort(_, cause), TransactionRef::Forward(f)) => {
            change_by_abort(alloc, d, f, *cause, s)
        }
        (Event::Undo(_), TransactionRef::Undoing(f, cause)) => undo_change(alloc, d, f, cause, s),
        (Event::Begin(_), _)
        | (
            Event::Step(_) | Event::Abort(_, _),
            TransactionRef::Undoing(_, _) | TransactionRef::Ended(_),
        )
        | (Event::Undo(_), TransactionRef::Forward(_) | TransactionRef::Ended(_)) => Ok(None),
    }
}
