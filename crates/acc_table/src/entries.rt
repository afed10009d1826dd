//! What entries forbid.
ghost use Rattle.std.specs.Prelude.{◌≡◌, ◌≤◌, ◌<◌, ◌^◌, ◌||◌, ℕ, length, option_map, IsFalse};
ghost use Rattle.std.specs.List.{list_any};
ghost use Rattle.acc_base.specs.Linear.{var};
ghost use Rattle.acc_base.specs.Effects.{first_from};
ghost use Rattle.acc_formed.specs.WellFormed.{IsWellFormed};
ghost use Rattle.acc_base.specs.Entries.{at_of, Forbids};
ghost use Rattle.acc_base.specs.Locks.{ClashesEither};
ghost use Rattle.acc_table.specs.Closures.{is_set};
ghost use Rattle.acc_table.specs.Entries.{pairs_agree, entry_forbids, entry_clashes, either_clashes, entry_may_clash, either_may_clash};
ghost use Rattle.acc_table.specs.Entries.{IsPointOf, TellsLowest};

use crate::closures::undo_points;
use acc_base::bounds::{MOST_ENTRIES, MOST_POINTS};
use acc_base::designs::{At, Design, Entry, Side};
use acc_base::machines::Frame;

/// A local, which is 0 past the last.
fn local(locals: &[i64], x: u32) -> i64
    ensures { result ≡ var locals.now x }
{
    locals.get(x as usize).copied().unwrap_or(0)
}

/// Whether the locals of each pair are equal.
fn pairs_agree(held: &[i64], locals: &[i64], pairs: &[(u32, u32)]) -> bool
    ensures { result ≡ pairs_agree held.now locals.now pairs.now }
{
    pairs
        .iter()
        .all(|pair| local(held, pair.0) == local(locals, pair.1))
}

/// Whether an entry forbids a step.
fn entry_forbids(
    entry: &Entry,
    held: At,
    held_locals: &[i64],
    step: At,
    side: Side,
    locals: &[i64],
) -> bool
    ensures { result ≡ entry_forbids held held_locals.now step side locals.now entry.now }
{
    entry.held == held
        && entry.step == step
        && entry.side == side
        && pairs_agree(held_locals, locals, entry.pairs.as_slice())
}

/// The first of the entries that forbids a step, by its number from 1.
fn first_forbidding(
    entries: &[Entry],
    held: At,
    held_locals: &[i64],
    step: At,
    side: Side,
    locals: &[i64],
) -> Option<u32>
    requires few { length entries.now ≤ MOST_ENTRIES }
    ensures { result ≡ first_from (entry_forbids held held_locals.now step side locals.now) 1 entries.now }
{
    for (i, entry) in entries.iter().enumerate() {
        if entry_forbids(entry, held, held_locals, step, side, locals) {
            return Some(i as u32 + 1);
        }
    }
    None
}

/// The entry by which a held frame forbids a step with these locals.
pub fn forbids(d: &Design, held: &Frame, at: At, side: Side, locals: &[i64]) -> Option<u32>
    requires formed { IsWellFormed d.now }
    ensures { TellsLowest (Forbids d.now (at_of held.now) held.now.locals at side locals.now) result }
{
    first_forbidding(
        d.entries.as_slice(),
        held.at(),
        held.locals.as_slice(),
        at,
        side,
        locals,
    )
}

/// Whether an entry forbids an undo step of the one type, with these locals, at a point of the other, whichever these are.
fn entry_may_clash(entry: &Entry, a: u32, a_locals: &[i64], b: u32, b_locals: &[i64]) -> bool
    ensures { result ≡ entry_may_clash a a_locals.now b b_locals.now entry.now }
{
    entry.side == Side::Undo
        && entry.step.ty == a
        && entry.held.ty == b
        && pairs_agree(b_locals, a_locals, entry.pairs.as_slice())
}

/// Whether an entry forbids an undo step that a may come to, at a point that b may come to.
fn entry_clashes(
    entry: &Entry,
    a: u32,
    a_points: &[bool; MOST_POINTS],
    a_locals: &[i64],
    b: u32,
    b_points: &[bool; MOST_POINTS],
    b_locals: &[i64],
) -> bool
    ensures { result ≡ entry_clashes a a_points.now a_locals.now b b_points.now b_locals.now entry.now }
{
    entry_may_clash(entry, a, a_locals, b, b_locals)
        && is_set(a_points, entry.step.point)
        && is_set(b_points, entry.held.point)
}

/// Whether a point's flag is set.
fn is_set(flags: &[bool; MOST_POINTS], q: u32) -> bool
    ensures { result ≡ is_set flags.now q }
{
    (q as usize) < MOST_POINTS && flags[q as usize]
}

/// The first of the entries that makes two points clash, by its number from 1.
fn first_clashing(
    entries: &[Entry],
    a: u32,
    a_points: &[bool; MOST_POINTS],
    a_locals: &[i64],
    b: u32,
    b_points: &[bool; MOST_POINTS],
    b_locals: &[i64],
) -> Option<u32>
    requires few { length entries.now ≤ MOST_ENTRIES }
    ensures { result ≡ first_from (either_clashes a a_points.now a_locals.now b b_points.now b_locals.now) 1 entries.now }
{
    for (i, entry) in entries.iter().enumerate() {
        if entry_clashes(entry, a, a_points, a_locals, b, b_points, b_locals)
            || entry_clashes(entry, b, b_points, b_locals, a, a_points, a_locals)
        {
            return Some(i as u32 + 1);
        }
    }
    None
}

/// Whether some entry may make points of two types clash, whichever these are.
fn some_may_clash(entries: &[Entry], a: u32, a_locals: &[i64], b: u32, b_locals: &[i64]) -> bool
    ensures { result ≡ list_any (either_may_clash a a_locals.now b b_locals.now) entries.now }
{
    entries.iter().any(|entry| {
        entry_may_clash(entry, a, a_locals, b, b_locals)
            || entry_may_clash(entry, b, b_locals, a, a_locals)
    })
}

/// Whether some entry may make two points clash, without a look at where undo steps lead.
fn may_clash(d: &Design, a: At, a_locals: &[i64], b: At, b_locals: &[i64]) -> bool
    ensures { IsFalse result → (n : ℕ) → ¬ ClashesEither d.now a a_locals.now b b_locals.now n }
{
    some_may_clash(d.entries.as_slice(), a.ty, a_locals, b.ty, b_locals)
}

/// The first entry by which two points clash, by the points to which their undo steps lead.
fn first_clash(d: &Design, a: At, a_locals: &[i64], b: At, b_locals: &[i64]) -> Option<u32>
    requires formed { IsWellFormed d.now }
    requires a_point { IsPointOf d.now a.ty a.point }
    requires b_point { IsPointOf d.now b.ty b.point }
    ensures { TellsLowest (ClashesEither d.now a a_locals.now b b_locals.now) result }
{
    let a_points = undo_points(d, a.ty, a.point);
    let b_points = undo_points(d, b.ty, b.point);
    first_clashing(
        d.entries.as_slice(),
        a.ty,
        &a_points,
        a_locals,
        b.ty,
        &b_points,
        b_locals,
    )
}

/// The entry because of which frames at two points with these locals aren't compatible: the one may come to an undo step that
/// it forbids where the other may come to stand.
///
/// It walks the entries once. Only where one of them is of an undo step of the one type, is held at the other, and has equal pairs, it
/// goes on to where the undo steps lead, and walks the entries again.
pub fn compatible(d: &Design, a: At, a_locals: &[i64], b: At, b_locals: &[i64]) -> Option<u32>
    requires formed { IsWellFormed d.now }
    requires a_point { IsPointOf d.now a.ty a.point }
    requires b_point { IsPointOf d.now b.ty b.point }
    ensures { TellsLowest (ClashesEither d.now a a_locals.now b b_locals.now) result }
{
    if may_clash(d, a, a_locals, b, b_locals) {
        first_clash(d, a, a_locals, b, b_locals)
    } else {
        None
    }
}
