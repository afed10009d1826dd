//! What helps with an open obligation, where more can be said than for all of its rule.
use crate::entries::{Clash, push_entry};
use crate::keys::{action_key, variable_in};
use crate::known::is_told;
use crate::names::{locals_of, path_of, type_at};
use crate::promises::{push_holds, push_none, push_only, push_there, push_where};
use crate::rows::{is_steady, is_unsure, own_table};
use acc_base::designs::{At, Design};
use acc_base::forms::{Lin, Rel, Unknown};
use acc_base::sequents::{Origin, Rule};
use acc_base::steps::Action;
use acc_elim_readings::readings::unknowns_of;
use acc_page::Page;
use std::alloc::{AllocError, Global};

/// A branch of a search that stays open: what is known there, its unknowns, and a point.
#[derive(Clone, Copy)]
struct OpenBranch<'a> {
    leaf: &'a [Rel],
    unknowns: &'a [Unknown],
    point: &'a [(i128, i128)],
}

/// The actions of an obligation's path.
fn actions_of<'a>(d: &'a Design, origin: &Origin) -> &'a [Action] {
    match path_of(d, origin) {
        Some(path) => path.actions.as_slice(),
        None => &[],
    }
}

/// The local that an unknown is, where it begins as 0 and has another value here, of which something is known.
fn begun<'a>(
    d: &'a Design,
    origin: &Origin,
    at: At,
    leaf: &[Rel],
    unknown: &Unknown,
    value: (i128, i128),
) -> Option<&'a [u8]> {
    let x = variable_in(&unknown.atom)?;
    if x < type_at(d, at)?.params || value.0 == 0 || !is_told(d, origin, leaf, unknown, value) {
        return None;
    }
    Some(locals_of(d, at).get(x as usize)?.as_slice())
}

/// Writes the locals that begin as 0 where this isn't known, as assertions of the first point; nothing of another point, and nothing
/// where something is written.
fn push_begun(out: &mut Page, d: &Design, origin: &Origin, at: At, branch: &OpenBranch) {
    if at.point != 0 || !out.is_empty() {
        return;
    }
    let mut before: &[u8] =
        b"a local that is no parameter begins as 0, which isn't known unless it is held: ";
    for (unknown, value) in branch.unknowns.iter().zip(branch.point.iter()) {
        if let Some(name) = begun(d, origin, at, branch.leaf, unknown, *value) {
            out.push(before);
            push_holds(out);
            out.push(name);
            out.push(b" = 0`");
            before = b", ";
        }
    }
    if !out.is_empty() {
        push_where(out, d, at);
    }
}

/// Writes that an own row is there that an action changes, where its key is the same before the reads of the step.
fn push_found(out: &mut Page, d: &Design, origin: &Origin, at: At, table: u32, key: &[Lin]) {
    if is_steady(d, at, origin.side, key) {
        out.push(b"it isn't known that the transaction has such a row: ");
        push_there(out, d, at, table, key)
    }
}

/// Writes that an action finds no row yet that it puts, or finds the one that it changes.
fn push_sure(out: &mut Page, d: &Design, origin: &Origin, at: At, action: &Action) {
    let Some(table) = own_table(d, action.table()) else {
        return;
    };
    match action {
        Action::Put(_, _, _) => {
            out.push(b"it isn't known that the transaction has no such row yet: ");
            push_none(out, d, at, table)
        }
        Action::Del(_, key) | Action::Set(_, key, _, _) | Action::Add(_, key, _, _) => {
            push_found(out, d, origin, at, action.table(), key.as_slice())
        }
    }
}

/// Writes what a path needs to know of the first own row that it may find, or not find, against what is meant.
fn push_own(out: &mut Page, d: &Design, origin: &Origin, at: At, branch: &OpenBranch) {
    for action in actions_of(d, origin) {
        if is_unsure(d, at, action, branch.unknowns, branch.point) {
            return push_sure(out, d, origin, at, action);
        }
    }
}

/// Writes that the row of an action is there, at a later point than the first.
fn push_row_of(out: &mut Page, d: &Design, origin: &Origin, at: At) {
    let number = origin.clause.saturating_sub(1) as usize;
    let Some(action) = actions_of(d, origin).get(number) else {
        return;
    };
    let key = action_key(action);
    if at.point != 0 && is_steady(d, at, origin.side, key) {
        out.push(b"hold that the row is there, ");
        push_there(out, d, at, action.table(), key);
        out.push(b", or read it by `has` and let the path ask for 1");
    }
}

/// What a path does to the rows of an own table.
#[derive(Clone, Copy)]
enum RowChange<'a> {
    Nothing,
    /// It drops the row of this key, and does no more.
    Drop(&'a [Lin]),
    Other,
}

/// What actions do to the rows of an own table.
fn change_of(actions: &[Action], table: u32) -> RowChange<'_> {
    let mut change = RowChange::Nothing;
    for action in actions {
        if action.table() == table {
            change = match (action, change) {
                (Action::Del(_, key), RowChange::Nothing) => RowChange::Drop(key.as_slice()),
                (Action::Del(_, _), RowChange::Drop(_) | RowChange::Other) =>
                    return RowChange::Other,
                (Action::Put(_, _, _) | Action::Set(_, _, _, _), _) => return RowChange::Other,
                (Action::Add(_, _, _, _), _) => return RowChange::Other,
            };
        }
    }
    change
}

/// Writes that a transaction has no rows of an own table, or no other than the one that its path drops.
fn push_left(out: &mut Page, d: &Design, origin: &Origin, at: At) {
    let number = origin.clause.saturating_sub(1);
    let Some(table) = own_table(d, number) else {
        return;
    };
    match change_of(actions_of(d, origin), number) {
        RowChange::Nothing => {
            out.push(match at.point {
                0 => b"it isn't known that the transaction has none: ",
                _ => b"drop the rows on the path, or hold that the transaction has none: ",
            });
            push_none(out, d, at, table)
        }
        RowChange::Drop(key) if is_steady(d, at, origin.side, key) => {
            out.push(b"it isn't known that the transaction has no other row: ");
            push_only(out, d, at, table, key)
        }
        RowChange::Drop(_) | RowChange::Other => {}
    }
}

/// Writes the entry that keeps the step of an obligation apart from what is held.
fn push_apart(
    alloc: Global,
    out: &mut Page,
    d: &Design,
    origin: &Origin,
    at: At,
) -> Result<(), AllocError> {
    let Some(held) = origin.held else {
        return Ok(());
    };
    let clash = Clash {
        held,
        step: at,
        side: origin.side,
    };
    push_entry(alloc, out, d, clash)
}

/// Writes what helps with an obligation on a step of a point, by its rule.
fn push_for(
    alloc: Global,
    out: &mut Page,
    d: &Design,
    origin: &Origin,
    at: At,
    branch: &OpenBranch,
) -> Result<(), AllocError> {
    match origin.rule {
        Rule::Promises => push_begun(out, d, origin, at, branch),
        Rule::Always => {
            push_own(out, d, origin, at, branch);
            push_begun(out, d, origin, at, branch)
        }
        Rule::Spares => return push_apart(alloc, out, d, origin, at),
        Rule::There => push_row_of(out, d, origin, at),
        Rule::Clears => push_left(out, d, origin, at),
        Rule::Begins | Rule::Ranges | Rule::Variants | Rule::Empty => {}
    }
    Ok(())
}

/// Writes what helps with an open obligation onto an empty page, where more can be said than for all of its rule: of an open leaf and its
/// point, or of no leaf where the search came to none.
pub fn push_cure(
    alloc: Global,
    out: &mut Page,
    d: &Design,
    origin: &Origin,
    leaf: &[Rel],
    point: &[(i128, i128)],
) -> Result<(), AllocError> {
    let Some(at) = origin.at else {
        return Ok(());
    };
    let unknowns = unknowns_of(alloc, leaf)?;
    let branch = OpenBranch {
        leaf,
        unknowns: unknowns.as_slice(),
        point,
    };
    push_for(alloc, out, d, origin, at, &branch)
}
