//! Which entry forbids a step, and by which two places clash.
ghost use Rattle.std.specs.Prelude.{IsTrue};
ghost use Rattle.acc_formed.specs.WellFormed.{IsWellFormed};
ghost use Rattle.acc_table.specs.Entries.{IsPointOf};

use acc_base::designs::{At, Design, Side};
use acc_base::machines::Frame;
use acc_base::sequences::Seq;
use acc_cases_words::words::{list, small};
use acc_lift::Accepted;
use acc_table::entries::{compatible, forbids};
use std::alloc::{AllocError, Global};
use std::fmt::Write;

/// The point of those numbers.
pub fn at(ty: &str, point: &str) -> At {
    At {
        ty: small(ty),
        point: small(point),
    }
}

/// The frame of a transaction that stands there.
fn standing(alloc: Global, at: At, locals: Vec<i64>) -> Frame {
    Frame {
        t: 1,
        ty: at.ty,
        point: at.point,
        side: Side::Next,
        locals: Seq::from_vec(locals),
        tape: Seq::new(alloc),
        pos: 0,
        steps: 0,
        ask: None,
    }
}

/// Whether there is such a point.
pub fn is_point(d: &Design, at: At) -> bool
    ensures { IsTrue result → IsPointOf d.now at.ty at.point }
{
    match d.types.as_slice().get(at.ty as usize) {
        Some(x) => x.points.as_slice().get(at.point as usize).is_some(),
        None => false,
    }
}

/// Pushes the number of an entry, if there is one.
fn push_entry(out: &mut String, entry: Option<u32>) -> Result<(), AllocError> {
    match entry {
        Some(n) => write!(out, "entry {n}"),
        None => out.push_str("none"),
    }
}

/// Pushes by which entry two places with these locals clash.
fn push_clash_of(
    out: &mut String,
    d: &Design,
    a: At,
    a_locals: &[i64],
    b: At,
    b_locals: &[i64],
) -> Result<(), AllocError>
    requires { IsWellFormed d.now }
{
    if !is_point(d, a) || !is_point(d, b) {
        return out.push_str("no point");
    }
    push_entry(out, compatible(d, a, a_locals, b, b_locals))
}

/// Pushes by which entry two places clash.
fn push_clash_in(
    alloc: Global,
    out: &mut String,
    d: &Design,
    words: &[&str],
) -> Result<(), AllocError>
    requires { IsWellFormed d.now }
{
    match words {
        [a, a_point, locals, b, b_point, others] => {
            let locals = list(alloc, locals)?;
            let others = list(alloc, others)?;
            push_clash_of(out, d, at(a, a_point), &locals, at(b, b_point), &others)
        }
        _ => out.push_str("no question"),
    }
}

/// Pushes by which entry two places clash.
pub fn push_clash(
    alloc: Global,
    out: &mut String,
    d: &Accepted,
    words: &str,
) -> Result<(), AllocError> {
    let words: Vec<&str> = words.split(' ').collect(alloc)?;
    push_clash_in(alloc, out, d.design(), words.as_slice())
}

fn side(word: &str) -> Side {
    if word == "undo" {
        Side::Undo
    } else {
        Side::Next
    }
}

/// Pushes by which entry a place forbids a step.
fn push_forbidding_in(
    alloc: Global,
    out: &mut String,
    d: &Design,
    words: &[&str],
) -> Result<(), AllocError>
    requires { IsWellFormed d.now }
{
    match words {
        [ty, point, held, on, step, step_point, locals] => {
            let held = standing(alloc, at(ty, point), list(alloc, held)?);
            let locals = list(alloc, locals)?;
            push_entry(
                out,
                forbids(d, &held, at(step, step_point), side(on), &locals),
            )
        }
        _ => out.push_str("no question"),
    }
}

/// Pushes by which entry a place forbids a step.
pub fn push_forbidding(
    alloc: Global,
    out: &mut String,
    d: &Accepted,
    words: &str,
) -> Result<(), AllocError> {
    let words: Vec<&str> = words.split(' ').collect(alloc)?;
    push_forbidding_in(alloc, out, d.design(), words.as_slice())
}
