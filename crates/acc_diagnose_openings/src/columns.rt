//! The columns that no assertion speaks of.
use acc_base::designs::{Design, Point, TxType};
use acc_base::forms::{Atom, Clause, Form, Rel};
use acc_base::tables::Table;
use acc_page::Page;

/// A column, by the place of its table and its own.
#[derive(Clone, Copy)]
struct Column {
    table: usize,
    place: usize,
}

fn is_of(column: Column, atom: &Atom) -> bool {
    match (atom.table(), atom.column()) {
        (Some(table), Some(place)) => {
            table as usize == column.table && place as usize == column.place
        }
        _ => false,
    }
}

fn is_in_form(column: Column, form: &Form) -> bool {
    for (unknown, _) in form.terms.as_slice() {
        if is_of(column, &unknown.atom) {
            return true;
        }
    }
    false
}

fn is_in_guards(column: Column, guards: &[Rel]) -> bool {
    for guard in guards {
        if is_in_form(column, &guard.form) {
            return true;
        }
    }
    false
}

fn is_in_clauses(column: Column, clauses: &[Clause]) -> bool {
    for clause in clauses {
        let is_in_rel = is_in_form(column, &clause.rel.form);
        if is_in_rel || is_in_guards(column, clause.guards.as_slice()) {
            return true;
        }
    }
    false
}

fn is_in_points(column: Column, points: &[Point]) -> bool {
    for point in points {
        if is_in_clauses(column, point.clauses.as_slice()) {
            return true;
        }
    }
    false
}

fn is_in_types(column: Column, types: &[TxType]) -> bool {
    for ty in types {
        if is_in_clauses(column, ty.posts.as_slice())
            || is_in_clauses(column, ty.repairs.as_slice())
            || is_in_points(column, ty.points.as_slice())
        {
            return true;
        }
    }
    false
}

/// Whether an assertion of a design speaks of a column.
fn is_spoken_of(d: &Design, column: Column) -> bool {
    is_in_clauses(column, d.always.as_slice()) || is_in_types(column, d.types.as_slice())
}

/// Writes the columns of a table that no assertion speaks of behind what is written, with commas between them.
fn push_table(out: &mut Page, d: &Design, table: &Table, number: usize) {
    for (place, name) in table.cols.as_slice().iter().enumerate() {
        let column = Column {
            table: number,
            place,
        };
        if !is_spoken_of(d, column) {
            out.push(if out.is_empty() { b"" } else { b", " });
            out.push(table.name.as_slice());
            out.push(b".");
            out.push(name.as_slice());
        }
    }
}

/// Writes the columns that no assertion of a design speaks of onto an empty page, as `T.c`, with commas between them.
pub fn push_unspoken(out: &mut Page, d: &Design) {
    for (number, table) in d.tables.as_slice().iter().enumerate() {
        push_table(out, d, table, number);
    }
}
