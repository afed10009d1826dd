//! The entry that keeps a step apart from an assertion that it may break.
use crate::meetings::{Meeting, tally_of};
use crate::names::{assigns, locals_of, type_at};
use crate::values::push_word;
use acc_base::designs::{At, Design, Entry, Side};
use acc_lex::language;
use acc_page::{Page, push_at};
use std::alloc::{AllocError, Global};

/// The point that is held, and the step that may break what is held there.
#[derive(Clone, Copy)]
pub struct Clash {
    pub held: At,
    pub step: At,
    pub side: Side,
}

fn is_of(clash: Clash, entry: &Entry) -> bool {
    entry.held == clash.held && entry.step == clash.step && entry.side == clash.side
}

/// The entry of a design that is there for these points.
fn entry_of(d: &Design, clash: Clash) -> Option<&Entry> {
    for entry in d.entries.as_slice() {
        if is_of(clash, entry) {
            return Some(entry);
        }
    }
    None
}

/// Whether no undo step of a point's type assigns a local.
fn is_kept(d: &Design, at: At, local: usize) -> bool {
    let Some(ty) = type_at(d, at) else {
        return false;
    };
    for point in ty.points.as_slice() {
        if assigns(point.undo.reads.as_slice(), local) {
            return false;
        }
    }
    true
}

/// Whether a row of both is one at which these two locals are equal, wherever the step may meet what is held, and there is such a row.
fn parts(d: &Design, clash: Clash, pair: (usize, usize)) -> bool {
    let (Some(held), Some(step)) = (d.point(clash.held), d.step(clash.step, clash.side)) else {
        return false;
    };
    let question = Meeting {
        pair,
        own: (
            locals_of(d, clash.held).len(),
            locals_of(d, clash.step).len(),
        ),
        paths: step.paths.as_slice(),
    };
    let tally = tally_of(&question, held.clauses.as_slice());
    tally.with > 0 && tally.without == 0
}

/// Whether a pair may stand in the entry.
fn is_fit(d: &Design, clash: Clash, pair: (usize, usize)) -> bool {
    is_kept(d, clash.held, pair.0) && is_kept(d, clash.step, pair.1) && parts(d, clash, pair)
}

/// Adds the pairs of a local of the held transaction that may stand in the entry.
fn add_pairs(
    out: &mut Vec<(usize, usize)>,
    d: &Design,
    clash: Clash,
    local: usize,
) -> Result<(), AllocError> {
    for other in 0..locals_of(d, clash.step).len() {
        if is_fit(d, clash, (local, other)) {
            out.push((local, other))?;
        }
    }
    Ok(())
}

/// Whether locals are one of some pairs.
fn is_among(pairs: &[(usize, usize)], left: u32, right: u32) -> bool {
    for pair in pairs {
        if pair.0 == left as usize && pair.1 == right as usize {
            return true;
        }
    }
    false
}

/// Whether an entry with these pairs forbids no more than one that is there.
fn is_no_more(entry: &Entry, pairs: &[(usize, usize)]) -> bool {
    for (left, right) in entry.pairs.as_slice() {
        if !is_among(pairs, *left, *right) {
            return false;
        }
    }
    true
}

/// The pairs of the entry: those of each row of both. None where the entry that is there forbids as much, and doesn't do.
fn pairs_of(alloc: Global, d: &Design, clash: Clash) -> Result<Vec<(usize, usize)>, AllocError> {
    let mut pairs = Vec::new(alloc);
    for local in 0..locals_of(d, clash.held).len() {
        add_pairs(&mut pairs, d, clash, local)?;
    }
    match entry_of(d, clash) {
        Some(entry) if is_no_more(entry, &pairs) => Ok(Vec::new(alloc)),
        _ => Ok(pairs),
    }
}

/// Writes the name of a local of a point's type.
fn push_local(out: &mut Page, d: &Design, at: At, local: usize) {
    if let Some(name) = locals_of(d, at).get(local) {
        out.push(name.as_slice());
    }
}

/// Writes an entry as it stands in a design.
fn push_line(out: &mut Page, d: &Design, clash: Clash, pairs: &[(usize, usize)]) {
    push_word(out, language::ENTRY);
    push_at(out, d, clash.held);
    out.push(b" ");
    push_word(out, language::BY);
    push_at(out, d, clash.step);
    out.push(b" ");
    out.push(match clash.side {
        Side::Next => language::NEXT,
        Side::Undo => language::UNDO,
    });
    let mut before: &[u8] = b" : ";
    for (left, right) in pairs {
        out.push(before);
        push_local(out, d, clash.held, *left);
        out.push(b" = ");
        push_local(out, d, clash.step, *right);
        before = b", ";
    }
}

/// Writes that less can be held at a point.
fn push_less(out: &mut Page, d: &Design, clash: Clash) {
    out.push(b"hold less at `");
    push_at(out, d, clash.held);
    out.push(b"`")
}

/// Writes the entry that keeps a step apart from what is held, on a line of its own, and where it belongs.
pub fn push_entry(
    alloc: Global,
    out: &mut Page,
    d: &Design,
    clash: Clash,
) -> Result<(), AllocError> {
    if clash.held.point == 0 {
        out.push(b"no entry holds a first point: ");
        push_less(out, d, clash);
        return Ok(());
    }
    out.push(match entry_of(d, clash) {
        Some(_) => b"write the line below in place of the entry that is there, or ",
        None => b"write the line below behind the types, or ",
    });
    push_less(out, d, clash);
    out.push(b"\n    ");
    let pairs = pairs_of(alloc, d, clash)?;
    push_line(out, d, clash, &pairs);
    Ok(())
}
