//! Whose step is held up.
ghost use Rattle.std.specs.Prelude.{◌≡◌, ◌≤◌, ◌^◌, List, length, slice_get, IfOk};
ghost use Rattle.std.specs.Prelude.{◌==◌};
ghost use Rattle.std.specs.List.{list_all};
ghost use Rattle.acc_base.specs.declared.machines.Frame.{Frame as Shown};
ghost use Rattle.acc_base.specs.Tables.{IsInOrder};
ghost use Rattle.acc_base.specs.Runnable.{IsRunnable, IsSmallFrame};
ghost use Rattle.acc_base.specs.Machine.{limit_of};
ghost use Rattle.acc_store.specs.Bounds.{AreWithin};
ghost use Rattle.acc_formed.specs.WellFormed.{IsWellFormed};
ghost use Rattle.acc_machine.specs.Blocked.{AreAtPoints};
ghost use Rattle.acc_lock_index.specs.Indexed.{StandsFor};
ghost use Rattle.acc_machine.specs.HeldUp.{leads_on, goes_ahead, TellsAhead, TellsHeldUp};
ghost use Rattle.acc_machine.specs.Barred.{led_by, TellsBarred};

use crate::blocked::blocker;
use acc_base::bounds::{LARGEST_SUM, MOST_LOCALS};
use acc_base::designs::{At, Design, Side};
use acc_base::machines::Frame;
use acc_base::steps::Target;
use acc_lock_index::{LockError, LockIndex};
use acc_plain::{Outlook, is_asked, limit_of, look};
use acc_store::Store;

/// Whether a step goes on or ends.
fn leads_on(outlook: Outlook) -> bool
    ensures { result ≡ leads_on outlook }
{
    match outlook {
        Outlook::Goes(_) => true,
        Outlook::Range | Outlook::Refused(_) => false,
    }
}

/// Whether nothing stops a step that looks so.
fn goes_ahead(d: &Design, f: &Frame, outlook: Outlook) -> bool
    ensures { result ≡ goes_ahead (limit_of (slice_get d.now.types f.now.ty)) f.now outlook }
{
    !is_asked(f) && f.steps < limit_of(d, f) && leads_on(outlook)
}

/// What the forward step of a frame looks like that nothing stops; none where something does. The first places take the locals after its
/// reads.
fn ahead<S: Store>(d: &Design, f: &Frame, s: &S, places: &mut [i64; MOST_LOCALS]) -> Option<Outlook>
    requires runnable { IsRunnable d.now }
    requires fits { IsSmallFrame f.now }
    requires order { IsInOrder (S.rows s.now) }
    requires within { AreWithin LARGEST_SUM (S.rows s.now) }
    ensures ahead { TellsAhead d.now (S.rows s.now) f.now places.new result }
{
    let outlook = look(d, f, Side::Next, s, places);
    if goes_ahead(d, f, outlook) {
        Some(outlook)
    } else {
        None
    }
}

/// Whether no frame is of another transaction.
fn are_all_of(frames: &[Frame], t: u64) -> bool
    ensures { result ≡ list_all (λ h. h.t == t) frames.now }
{
    frames.iter().all(|h| h.t == t)
}

/// Who blocks a frame's forward step that nothing stops, the first of the frames that does, and its lowest entry. It takes no memory, and
/// looks at no row where no frame is of another transaction.
pub fn held_up<S: Store>(d: &Design, frames: &[Frame], f: &Frame, s: &S) -> Option<(u64, u32)>
    requires formed { IsWellFormed d.now }
    requires runnable { IsRunnable d.now }
    requires fits { IsSmallFrame f.now }
    requires order { IsInOrder (S.rows s.now) }
    requires within { AreWithin LARGEST_SUM (S.rows s.now) }
    requires holders { AreAtPoints d.now frames.now }
    ensures { TellsHeldUp d.now (S.rows s.now) frames.now f.now result }
{
    if are_all_of(frames, f.t) {
        return None;
    }
    let mut places = [0; MOST_LOCALS];
    let outlook = ahead(d, f, s, &mut places)?;
    blocker(d, frames, f, &places[..f.locals.len()], outlook)
}

/// The point to which a step of a frame leads that looks so, none where it leads to an end.
fn led_by(f: &Frame, outlook: Outlook) -> Option<At>
    ensures { result ≡ led_by f.now.ty outlook }
{
    match outlook {
        Outlook::Goes(Target::Point(point)) => Some(At { ty: f.ty, point }),
        Outlook::Goes(Target::Commit | Target::Undone | Target::Refuse(_))
        | Outlook::Range
        | Outlook::Refused(_) => None,
    }
}

/// Who bars a frame's forward step that nothing stops, of the frames for which an index stands, and its lowest entry.
pub fn barred<S: Store>(
    d: &Design,
    index: &LockIndex,
    f: &Frame,
    s: &S,
) -> Result<Option<(u64, u32)>, LockError>
    requires formed { IsWellFormed d.now }
    requires runnable { IsRunnable d.now }
    requires fits { IsSmallFrame f.now }
    requires order { IsInOrder (S.rows s.now) }
    requires within { AreWithin LARGEST_SUM (S.rows s.now) }
    ensures { (frames : List Shown) → StandsFor d.now frames index.now.standings
        → IfOk result (TellsBarred d.now (S.rows s.now) frames f.now) }
{
    let mut places = [0; MOST_LOCALS];
    let Some(outlook) = ahead(d, f, s, &mut places) else {
        return Ok(None);
    };
    let locals = &places[..f.locals.len()];
    index.first(d, f.t, f.at(), locals, led_by(f, outlook), locals)
}
