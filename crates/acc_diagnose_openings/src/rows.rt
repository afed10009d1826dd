//! Rows of a transaction's own tables, of which it isn't known whether they are there.
use crate::keys::is_alone;
use crate::names::{assigns, locals_of};
use acc_base::designs::{At, Design, Side};
use acc_base::forms::{Atom, Lin, Unknown};
use acc_base::steps::{Action, Read};
use acc_base::tables::Table;

/// The own table with this number, if it is one.
pub fn own_table(d: &Design, table: u32) -> Option<&Table> {
    match d.tables.as_slice().get(table as usize) {
        Some(table) if table.own => Some(table),
        _ => None,
    }
}

/// Whether a key ends with the number of the transaction that takes the step.
fn is_own(d: &Design, at: At, key: &[Lin]) -> bool {
    match key {
        [.., last] => is_alone(last, locals_of(d, at).len()),
        [] => false,
    }
}

fn is_put(action: &Action) -> bool {
    match action {
        Action::Put(_, _, _) => true,
        Action::Del(_, _) | Action::Set(_, _, _, _) | Action::Add(_, _, _, _) => false,
    }
}

/// Whether an unknown has a value at which an action finds a row that it is to put, or finds none that it is to change.
fn is_against(d: &Design, at: At, action: &Action, unknown: &Unknown, value: i128) -> bool {
    let atom = &unknown.atom;
    let is_met = match atom {
        Atom::Has(_, _) => is_put(action) == (value != 0),
        Atom::Col(_, _, _) => is_put(action) && value != 0,
        Atom::One | Atom::Var(_) | Atom::Count(_, _) | Atom::Sum(_, _, _) => false,
    };
    let is_of_row = atom.table() == Some(action.table()) && is_own(d, at, atom.key());
    is_met && is_of_row && unknown.under.is_empty()
}

/// Whether an action on an own table finds a row that it is to put, or finds none that it is to change, at a point's values.
pub fn is_unsure(
    d: &Design,
    at: At,
    action: &Action,
    unknowns: &[Unknown],
    point: &[(i128, i128)],
) -> bool {
    if own_table(d, action.table()).is_none() {
        return false;
    }
    for (unknown, value) in unknowns.iter().zip(point.iter()) {
        if is_against(d, at, action, unknown, value.0) {
            return true;
        }
    }
    false
}

fn is_free_of(value: &Lin, reads: &[Read]) -> bool {
    for (x, _) in value.coeffs.as_slice() {
        if assigns(reads, *x as usize) {
            return false;
        }
    }
    true
}

/// Whether a key is the same before the reads of a step as behind them.
pub fn is_steady(d: &Design, at: At, side: Side, key: &[Lin]) -> bool {
    let Some(step) = d.step(at, side) else {
        return false;
    };
    for part in key {
        if !is_free_of(part, step.reads.as_slice()) {
            return false;
        }
    }
    true
}
