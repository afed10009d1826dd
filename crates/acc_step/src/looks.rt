//! What a step would do, told without memory.
ghost use Rattle.std.specs.Prelude.{◌≡◌, ◌≤◌, ◌^◌, length, take, drop, IfSome, Some};
ghost use Rattle.acc_base.specs.Tables.{IsInOrder};
ghost use Rattle.acc_base.specs.Effects.{step_effect, effect_of};
ghost use Rattle.acc_base.specs.Runnable.{IsRunnable, CanStep, IsSmallFrame};
ghost use Rattle.acc_store.specs.Bounds.{AreWithin};
ghost use Rattle.acc_step.specs.Outlooks.{outlook_to, outlook_of, locals_after};

use crate::effects::step_for;
use crate::paths::path_taken;
use crate::ranges::are_in_range;
use crate::reads::take_reads;
use crate::variables::Variables;
use acc_base::bounds::{LARGEST_SUM, MOST_LOCALS};
use acc_base::designs::{Design, Side};
use acc_base::machines::Frame;
use acc_base::steps::{Step, Target};
use acc_store::Store;

/// What the step of a frame would do now.
#[derive(Clone, Copy, Debug, PartialEq, Eq)]
pub enum Outlook {
    /// A number of the step leaves its range; or there is no such step, or no path of it is open.
    Range,
    /// It refuses.
    Refused(u32),
    /// It goes on, or ends.
    Goes(Target),
}

/// Where a path leads whose numbers are in range.
fn led_to(target: Target) -> Outlook
    ensures { result ≡ outlook_to target }
{
    match target {
        Target::Refuse(n) => Outlook::Refused(n),
        Target::Point(_) | Target::Commit | Target::Undone => Outlook::Goes(target),
    }
}

/// Lays the items at the first places.
fn lay(items: &[i64], places: &mut [i64; MOST_LOCALS])
    requires few { length items.now ≤ MOST_LOCALS }
    ensures first { take (length items.now) places.new ≡ items.now }
    ensures others { drop (length items.now) places.new ≡ drop (length items.now) places.old }
{
    places[..items.len()].copy_from_slice(items);
}

/// What a step of a frame would do.
fn look_on<S: Store>(
    f: &Frame,
    side: Side,
    step: &Step,
    s: &S,
    after: &mut [i64; MOST_LOCALS],
) -> Outlook
    requires can { CanStep side step.now }
    requires fits { IsSmallFrame f.now }
    requires order { IsInOrder (S.rows s.now) }
    requires within { AreWithin LARGEST_SUM (S.rows s.now) }
    ensures outcome { result ≡ outlook_of (step_effect (S.rows s.now) f.now side (Some step.now)) }
    ensures locals { IfSome (locals_after (step_effect (S.rows s.now) f.now side (Some step.now)))
        (λ locals. take (length f.now.locals) after.new ≡ locals) }
    ensures others { drop (length f.now.locals) after.new ≡ drop (length f.now.locals) after.old }
{
    let mut variables = Variables::of(f);
    let Some(_) = take_reads(s, f, step.reads.as_slice(), &mut variables) else {
        return Outlook::Range;
    };
    lay(variables.locals.as_slice(), after);
    let paths = step.paths.as_slice();
    let Some(place) = path_taken(paths, &variables) else {
        return Outlook::Range;
    };
    let path = &paths[place];
    if are_in_range(s, side, path.actions.as_slice(), &variables) {
        led_to(path.target)
    } else {
        Outlook::Range
    }
}

/// What the step of a frame on a side would do with the rows of a store, which stay as they are. It takes no memory.
///
/// The first places of `after` take the locals after the reads, where their numbers are in range. There is one look-up of the store
/// for a read or an `add`, and an `add` walks the actions before it, of which there are at most 15.
pub fn look<S: Store>(
    d: &Design,
    f: &Frame,
    side: Side,
    s: &S,
    after: &mut [i64; MOST_LOCALS],
) -> Outlook
    requires runnable { IsRunnable d.now }
    requires fits { IsSmallFrame f.now }
    requires order { IsInOrder (S.rows s.now) }
    requires within { AreWithin LARGEST_SUM (S.rows s.now) }
    ensures outcome { result ≡ outlook_of (effect_of d.now (S.rows s.now) f.now side) }
    ensures locals { IfSome (locals_after (effect_of d.now (S.rows s.now) f.now side))
        (λ locals. take (length f.now.locals) after.new ≡ locals) }

    // The places after those of the locals stay as they were.
    ensures others { drop (length f.now.locals) after.new ≡ drop (length f.now.locals) after.old }
{
    match step_for(d, f.at(), side) {
        Some(step) => look_on(f, side, step, s, after),
        None => Outlook::Range,
    }
}
