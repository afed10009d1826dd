//! The keys of a transaction.
ghost use Rattle.std.specs.Prelude.{◌≡◌, ◌≤◌, ◌++◌, length, IfOk, OnOk};
ghost use Rattle.std.specs.List.{list_any};
ghost use Rattle.acc_base.specs.Linear.{var};
ghost use Rattle.acc_formed.specs.WellFormed.{IsWellFormed};
ghost use Rattle.acc_table.specs.Closures.{is_set};
ghost use Rattle.acc_table.specs.Entries.{IsPointOf};
ghost use Rattle.acc_lock_index.specs.Roles.{standing_key, coming_key, undoing_key, held_values, step_values, stands, may_stand};
ghost use Rattle.acc_lock_index.specs.Roles.{may_undo, names_undo, one_if, keys_at, keys_from};
ghost use Rattle.acc_lock_index.specs.Indexed.{AreKeysOf, IsReached};

use acc_base::bounds::{MOST_ENTRIES, MOST_POINTS};
use acc_base::designs::{At, Design, Entry, Side};
use acc_lock_holders::keys::{Key, Role};
use acc_table::undo_points;
use std::alloc::{AllocError, Global};

/// A local, which is 0 past the last.
fn local(locals: &[i64], x: u32) -> i64
    ensures { result ≡ var locals.now x }
{
    locals.get(x as usize).copied().unwrap_or(0)
}

/// The values of an entry's pairs on the side of its held point.
pub fn held_values(alloc: Global, entry: &Entry, locals: &[i64]) -> Result<Vec<i64>, AllocError>
    ensures { IfOk result (λ values. values.items ≡ held_values entry.now locals.now) }
{
    let mut values = Vec::new(alloc);
    for pair in entry.pairs.as_slice() {
        values.push(local(locals, pair.0))?;
    }
    Ok(values)
}

/// The values of an entry's pairs on the side of its step.
pub fn step_values(alloc: Global, entry: &Entry, locals: &[i64]) -> Result<Vec<i64>, AllocError>
    ensures { IfOk result (λ values. values.items ≡ step_values entry.now locals.now) }
{
    let mut values = Vec::new(alloc);
    for pair in entry.pairs.as_slice() {
        values.push(local(locals, pair.1))?;
    }
    Ok(values)
}

/// Whether a forward step beside one that stands at a point is the entry's.
fn stands(at: At, entry: &Entry) -> bool
    ensures { result ≡ stands at entry.now }
{
    entry.side == Side::Next && entry.held == at
}

/// Whether a point's flag is set.
fn is_set(flags: &[bool; MOST_POINTS], q: u32) -> bool
    ensures { result ≡ is_set flags.now q }
{
    (q as usize) < MOST_POINTS && flags[q as usize]
}

/// Whether an entry of an undo step is held at a point of a type whose flag is set.
pub fn may_stand(ty: u32, points: &[bool; MOST_POINTS], entry: &Entry) -> bool
    ensures { result ≡ may_stand ty points.now entry.now }
{
    entry.side == Side::Undo && entry.held.ty == ty && is_set(points, entry.held.point)
}

/// Whether an entry is of the undo step of a point of a type whose flag is set.
pub fn may_undo(ty: u32, points: &[bool; MOST_POINTS], entry: &Entry) -> bool
    ensures { result ≡ may_undo ty points.now entry.now }
{
    entry.side == Side::Undo && entry.step.ty == ty && is_set(points, entry.step.point)
}

/// Adds the key under an entry of who stands at its held point.
fn push_standing(
    keys: &mut Vec<Key>,
    alloc: Global,
    at: At,
    locals: &[i64],
    n: u32,
    entry: &Entry,
) -> Result<(), AllocError>
    ensures { OnOk result (keys.new.items ≡ keys.old.items
        ++ one_if (stands at entry.now) (standing_key n (held_values entry.now locals.now))) }
{
    if stands(at, entry) {
        keys.push(Key::new(Role::Standing, n, held_values(alloc, entry, locals)?))?;
    }
    Ok(())
}

/// Adds the key under an entry of who may come to stand at its held point.
fn push_coming(
    keys: &mut Vec<Key>,
    alloc: Global,
    ty: u32,
    locals: &[i64],
    points: &[bool; MOST_POINTS],
    n: u32,
    entry: &Entry,
) -> Result<(), AllocError>
    ensures { OnOk result (keys.new.items ≡ keys.old.items
        ++ one_if (may_stand ty points.now entry.now) (coming_key n (held_values entry.now locals.now))) }
{
    if may_stand(ty, points, entry) {
        keys.push(Key::new(Role::Coming, n, held_values(alloc, entry, locals)?))?;
    }
    Ok(())
}

/// Adds the key under an entry of who may come to take its undo step.
fn push_undoing(
    keys: &mut Vec<Key>,
    alloc: Global,
    ty: u32,
    locals: &[i64],
    points: &[bool; MOST_POINTS],
    n: u32,
    entry: &Entry,
) -> Result<(), AllocError>
    ensures { OnOk result (keys.new.items ≡ keys.old.items
        ++ one_if (may_undo ty points.now entry.now) (undoing_key n (step_values entry.now locals.now))) }
{
    if may_undo(ty, points, entry) {
        keys.push(Key::new(Role::Undoing, n, step_values(alloc, entry, locals)?))?;
    }
    Ok(())
}

/// Adds the keys under an entry.
fn push_keys(
    keys: &mut Vec<Key>,
    alloc: Global,
    at: At,
    locals: &[i64],
    points: &[bool; MOST_POINTS],
    n: u32,
    entry: &Entry,
) -> Result<(), AllocError>
    ensures { OnOk result (keys.new.items ≡ keys.old.items ++ keys_at at locals.now points.now n entry.now) }
{
    push_standing(keys, alloc, at, locals, n, entry)?;
    push_coming(keys, alloc, at.ty, locals, points, n, entry)?;
    push_undoing(keys, alloc, at.ty, locals, points, n, entry)
}

/// The keys under some entries.
fn keys_under(
    alloc: Global,
    at: At,
    locals: &[i64],
    points: &[bool; MOST_POINTS],
    entries: &[Entry],
) -> Result<Vec<Key>, AllocError>
    requires few { length entries.now ≤ MOST_ENTRIES }
    ensures { IfOk result (λ keys. keys.items ≡ keys_from at locals.now points.now 1 entries.now) }
{
    let mut keys = Vec::new(alloc);
    for (i, entry) in entries.iter().enumerate() {
        push_keys(&mut keys, alloc, at, locals, points, i as u32 + 1, entry)?;
    }
    Ok(keys)
}

/// Whether an entry of an undo step names a type, as held or as the step's.
fn names_undo(ty: u32, entry: &Entry) -> bool
    ensures { result ≡ names_undo ty entry.now }
{
    entry.side == Side::Undo && (entry.held.ty == ty || entry.step.ty == ty)
}

/// Whether one of the entries does.
fn some_names(entries: &[Entry], ty: u32) -> bool
    ensures { result ≡ list_any (names_undo ty) entries.now }
{
    entries.iter().any(|entry| names_undo(ty, entry))
}

/// The flags of the points that undo steps reach from a point. Where no entry of an undo step names its type nothing asks for them, and
/// none is set.
pub fn reached_from(d: &Design, at: At) -> [bool; MOST_POINTS]
    requires formed { IsWellFormed d.now }
    requires point { IsPointOf d.now at.ty at.point }
    ensures { IsReached d.now at result }
{
    if !some_names(d.entries.as_slice(), at.ty) {
        return [false; MOST_POINTS];
    }
    undo_points(d, at.ty, at.point)
}

/// The keys of a transaction that stands at a point with these locals.
pub fn keys_of(alloc: Global, d: &Design, at: At, locals: &[i64]) -> Result<Vec<Key>, AllocError>
    requires formed { IsWellFormed d.now }
    requires point { IsPointOf d.now at.ty at.point }
    ensures { IfOk result (λ keys. AreKeysOf d.now at locals.now keys.items) }
{
    let points = reached_from(d, at);
    keys_under(alloc, at, locals, &points, d.entries.as_slice())
}
