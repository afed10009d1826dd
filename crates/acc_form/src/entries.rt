//! What entries may name.
ghost use Rattle.std.specs.Prelude.{◌≡◌, slice_get};
ghost use Rattle.std.specs.List.{list_all, list_any};
ghost use Rattle.acc_formed.specs.Entries.{leaves_starts, same_point, same_side, same_entry, read_keeps, undo_keeps, undos_keep};
ghost use Rattle.acc_formed.specs.Entries.{pair_stays, pairs_stay};

use acc_base::designs::{At, Entry, Point, Side, TxType};
use acc_base::steps::Read;

/// Whether an entry names no start point as held, and no start point's undo.
pub fn leaves_starts(entry: &Entry) -> bool
    ensures { result ≡ leaves_starts entry.now }
{
    let is_undo = match entry.side {
        Side::Next => false,
        Side::Undo => true,
    };
    entry.held.point != 0 && !(entry.step.point == 0 && is_undo)
}

fn same_point(a: At, b: At) -> bool
    ensures { result ≡ same_point a b }
{
    a.ty == b.ty && a.point == b.point
}

fn same_side(a: Side, b: Side) -> bool
    ensures { result ≡ same_side a b }
{
    match (a, b) {
        (Side::Next, Side::Next) => true,
        (Side::Undo, Side::Undo) => true,
        (Side::Next, Side::Undo) => false,
        (Side::Undo, Side::Next) => false,
    }
}

fn same_entry(a: &Entry, b: &Entry) -> bool
    ensures { result ≡ same_entry a.now b.now }
{
    same_point(a.held, b.held) && same_point(a.step, b.step) && same_side(a.side, b.side)
}

/// Whether one of the entries has the same held point, step and side.
pub fn stands_among(entries: &[Entry], entry: &Entry) -> bool
    ensures { result ≡ list_any (same_entry entry.now) entries.now }
{
    entries.iter().any(|e| same_entry(entry, e))
}

fn all_reads_keep(x: u32, reads: &[Read]) -> bool
    ensures { result ≡ list_all (read_keeps x) reads.now }
{
    reads.iter().all(|r| r.assigned() != x)
}

fn all_undos_keep(x: u32, points: &[Point]) -> bool
    ensures { result ≡ list_all (undo_keeps x) points.now }
{
    points
        .iter()
        .all(|p| all_reads_keep(x, p.undo.reads.as_slice()))
}

/// Whether no undo step of a type assigns a local.
pub fn undos_keep(types: &[TxType], ty: u32, x: u32) -> bool
    ensures { result ≡ undos_keep (slice_get types.now ty) x }
{
    match types.get(ty as usize) {
        None => false,
        Some(t) => all_undos_keep(x, t.points.as_slice()),
    }
}

fn pair_stays(types: &[TxType], entry: &Entry, pair: (u32, u32)) -> bool
    ensures { result ≡ pair_stays types.now entry.now pair }
{
    undos_keep(types, entry.held.ty, pair.0) && undos_keep(types, entry.step.ty, pair.1)
}

/// Whether no undo step assigns a local that stands in a pair.
pub fn pairs_stay(types: &[TxType], entry: &Entry) -> bool
    ensures { result ≡ pairs_stay types.now entry.now }
{
    let pairs = entry.pairs.as_slice();
    pairs.iter().all(|p| pair_stays(types, entry, *p))
}
