//! The points that words name.
ghost use Rattle.std.specs.Prelude.{◌≡◌, IfOk};
ghost use Rattle.acc_base.specs.Lines.{at_text};
ghost use Rattle.acc_oblig_places.specs.ManyEntries.{IsFormedButEntries};
ghost use Rattle.acc_commands_files.specs.Advising.{named, not_start, may_forbid, held_at, step_at};

use acc_base::designs::{At, Design, Side};
use acc_oblig_places::points_of;
use acc_page::{Page, push_at};
use std::alloc::{AllocError, Global};

/// The name of a point, as TYPE.POINT.
fn text_at(alloc: Global, d: &Design, at: At) -> Result<Vec<u8>, AllocError>
    ensures { IfOk result (λ text. text.items ≡ at_text d.now at) }
{
    let mut text = Page::new(alloc);
    push_at(&mut text, d, at);
    match text.finish() {
        Some(text) => Ok(text),
        None => Err(AllocError),
    }
}

/// The point that a word names, if there is one.
fn named(alloc: Global, d: &Design, word: &str) -> Result<Option<At>, AllocError>
    requires { IsFormedButEntries d.now }
    ensures { IfOk result (λ at. at ≡ named d.now word.now) }
{
    let points = points_of(alloc, d)?;
    for q in &points {
        let name = text_at(alloc, d, q.at)?;
        if name.as_slice() == word.as_bytes() {
            return Ok(Some(q.at));
        }
    }
    Ok(None)
}

/// A point that isn't the start point of its type.
fn not_start(at: At) -> Option<At>
    ensures { result ≡ not_start at }
{
    if at.point == 0 { None } else { Some(at) }
}

/// A point of which an entry may forbid the step of this side.
fn may_forbid(side: Side, at: At) -> Option<At>
    ensures { result ≡ may_forbid side at }
{
    match side {
        Side::Next => Some(at),
        Side::Undo => not_start(at),
    }
}

/// The point that a word names as held, if there is one that an entry may hold.
pub fn held_at(alloc: Global, d: &Design, word: &str) -> Result<Option<At>, AllocError>
    requires { IsFormedButEntries d.now }
    ensures { IfOk result (λ at. at ≡ held_at d.now word.now) }
{
    match named(alloc, d, word)? {
        Some(at) => Ok(not_start(at)),
        None => Ok(None),
    }
}

/// The point that a word names, if there is one of which an entry may forbid the step of this side.
pub fn step_at(alloc: Global, d: &Design, side: Side, word: &str) -> Result<Option<At>, AllocError>
    requires { IsFormedButEntries d.now }
    ensures { IfOk result (λ at. at ≡ step_at d.now side word.now) }
{
    match named(alloc, d, word)? {
        Some(at) => Ok(may_forbid(side, at)),
        None => Ok(None),
    }
}
