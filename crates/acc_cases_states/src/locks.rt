//! Calls of an index of transactions by what they forbid.
ghost use Rattle.acc_formed.specs.WellFormed.{IsWellFormed};

use crate::entries::{at, is_point};
use acc_base::designs::{At, Design};
use acc_cases_words::words::{list, number};
use acc_lift::Accepted;
use acc_lock_index::{LockError, LockIndex};
use std::alloc::{AllocError, Global};
use std::fmt::Write;

/// Where a transaction stands: its number, its point and its locals.
#[derive(Drop)]
struct FramePlace {
    t: u64,
    at: At,
    locals: Vec<i64>,
}

/// The place of those words.
fn place_in(
    alloc: Global,
    t: &str,
    ty: &str,
    point: &str,
    locals: &str,
) -> Result<FramePlace, AllocError> {
    Ok(FramePlace {
        t: number(t),
        at: at(ty, point),
        locals: list(alloc, locals)?,
    })
}

/// Pushes whether a transaction enters.
fn push_entered(
    out: &mut String,
    index: &mut LockIndex,
    d: &Design,
    place: &FramePlace,
) -> Result<(), AllocError>
    requires { IsWellFormed d.now }
{
    if index.has(place.t) || !is_point(d, place.at) {
        return out.push_str("no place");
    }
    match index.enter(d, place.t, place.at, place.locals.as_slice()) {
        Ok(()) => out.push_str("entered"),
        Err(LockError::Memory) => Err(AllocError),
    }
}

/// Pushes whether room is made for a transaction to stand somewhere else, and changes it then, if it is to.
fn push_prepared(
    out: &mut String,
    index: &mut LockIndex,
    d: &Design,
    place: &FramePlace,
    changes: bool,
) -> Result<(), AllocError>
    requires { IsWellFormed d.now }
{
    if !index.has(place.t) || !is_point(d, place.at) {
        return out.push_str("no place");
    }
    match index.prepare(d, place.t, place.at, place.locals.as_slice()) {
        Ok(()) => {}
        Err(LockError::Memory) => return Err(AllocError),
    }
    if changes {
        index.change();
        return out.push_str("changed");
    }
    out.push_str("prepared")
}

/// Pushes whether a transaction leaves.
fn push_left(out: &mut String, index: &mut LockIndex, t: u64) -> Result<(), AllocError> {
    if !index.has(t) {
        return out.push_str("not there");
    }
    index.leave(t);
    out.push_str("left")
}

/// Pushes a holder and its entry, if there is one.
fn push_holder(out: &mut String, found: Option<(u64, u32)>) -> Result<(), AllocError> {
    match found {
        Some((holder, entry)) => write!(out, "holder {holder} entry {entry}"),
        None => out.push_str("none"),
    }
}

/// Pushes who bars a step that leads to a point, with the same locals there.
fn push_first_to(
    out: &mut String,
    index: &LockIndex,
    d: &Design,
    place: &FramePlace,
    to: At,
) -> Result<(), AllocError>
    requires { IsWellFormed d.now }
{
    if !is_point(d, to) {
        return out.push_str("no point");
    }
    let locals = place.locals.as_slice();
    match index.first(d, place.t, place.at, locals, Some(to), locals) {
        Ok(found) => push_holder(out, found),
        Err(LockError::Memory) => Err(AllocError),
    }
}

/// Pushes who bars a step that leads to an end.
fn push_first(
    out: &mut String,
    index: &LockIndex,
    d: &Design,
    place: &FramePlace,
) -> Result<(), AllocError>
    requires { IsWellFormed d.now }
{
    let locals = place.locals.as_slice();
    match index.first(d, place.t, place.at, locals, None, locals) {
        Ok(found) => push_holder(out, found),
        Err(LockError::Memory) => Err(AllocError),
    }
}

/// Pushes what a call of those words answers.
fn push_call(
    alloc: Global,
    out: &mut String,
    index: &mut LockIndex,
    d: &Design,
    words: &[&str],
) -> Result<(), AllocError>
    requires { IsWellFormed d.now }
{
    match words {
        ["enter", t, ty, point, locals] => {
            push_entered(out, index, d, &place_in(alloc, t, ty, point, locals)?)
        }
        ["prepare", t, ty, point, locals] => {
            push_prepared(
                out,
                index,
                d,
                &place_in(alloc, t, ty, point, locals)?,
                false,
            )
        }
        ["change", t, ty, point, locals] => {
            push_prepared(out, index, d, &place_in(alloc, t, ty, point, locals)?, true)
        }
        ["leave", t] => push_left(out, index, number(t)),
        ["first", t, ty, point, locals] => {
            push_first(out, index, d, &place_in(alloc, t, ty, point, locals)?)
        }
        ["first", t, ty, point, locals, to] => {
            push_first_to(
                out,
                index,
                d,
                &place_in(alloc, t, ty, point, locals)?,
                at(ty, to),
            )
        }
        _ => out.push_str("no call"),
    }
}

/// Pushes what an item answers.
fn push_item(
    alloc: Global,
    out: &mut String,
    index: &mut LockIndex,
    d: &Design,
    item: &str,
) -> Result<(), AllocError>
    requires { IsWellFormed d.now }
{
    let words: Vec<&str> = item.split(' ').collect(alloc)?;
    push_call(alloc, out, index, d, words.as_slice())
}

/// Pushes what calls of an index answer in which no transaction is, one after the other.
fn push_items(alloc: Global, out: &mut String, d: &Design, items: &str) -> Result<(), AllocError>
    requires { IsWellFormed d.now }
{
    let mut index = LockIndex::new(alloc);
    let mut first = true;
    for item in items.split("; ") {
        if !first {
            out.push_str("; ")?;
        }
        first = false;
        push_item(alloc, out, &mut index, d, item)?;
    }
    Ok(())
}

/// Pushes what calls of an index answer, over an accepted design.
pub fn push_locks(
    alloc: Global,
    out: &mut String,
    design: &Accepted,
    items: &str,
) -> Result<(), AllocError> {
    push_items(alloc, out, design.design(), items)
}
