//! Values of rows and variables, as a design spells them.
use crate::names::push_variable;
use acc_base::designs::Design;
use acc_base::forms::{Atom, Lin};
use acc_base::sequents::Origin;
use acc_lex::language;
use acc_page::Page;

/// Writes a word of the language, and a space behind it.
pub fn push_word(out: &mut Page, word: &[u8]) {
    out.push(word);
    out.push(b" ")
}

/// Writes a term: its sign, where it isn't the first or is below 0, its number, if it isn't 1, and its variable.
fn push_term(out: &mut Page, d: &Design, origin: &Origin, term: &(u32, i64), is_first: bool) {
    push_sign(out, term.1, is_first);
    let times = term.1.unsigned_abs();
    if times != 1 {
        out.push_number(times);
        out.push(b" * ");
    }
    push_variable(out, d, origin, term.0)
}

/// Writes the sign of a part of a sum.
fn push_sign(out: &mut Page, number: i64, is_first: bool) {
    match (is_first, number < 0) {
        (true, false) => {}
        (true, true) => out.push(b"-"),
        (false, false) => out.push(b" + "),
        (false, true) => out.push(b" - "),
    }
}

/// Writes a linear value.
pub fn push_lin(out: &mut Page, d: &Design, origin: &Origin, value: &Lin) {
    let mut is_first = true;
    for term in value.coeffs.as_slice() {
        push_term(out, d, origin, term, is_first);
        is_first = false;
    }
    if is_first || value.constant != 0 {
        push_sign(out, value.constant, is_first);
        out.push_number(value.constant.unsigned_abs());
    }
}

/// Writes the name of a table, with a key or the front of one.
pub fn push_row(out: &mut Page, d: &Design, origin: &Origin, table: u32, key: &[Lin]) {
    if let Some(table) = d.tables.as_slice().get(table as usize) {
        out.push(table.name.as_slice());
    }
    out.push(b"[");
    let mut before: &[u8] = b"";
    for part in key {
        out.push(before);
        push_lin(out, d, origin, part);
        before = b", ";
    }
    out.push(b"]")
}

/// Writes the name of a column.
fn push_column(out: &mut Page, d: &Design, table: u32, column: u32) {
    out.push(b".");
    if let Some(table) = d.tables.as_slice().get(table as usize) {
        if let Some(name) = table.cols.as_slice().get(column as usize) {
            out.push(name.as_slice());
        }
    }
}

/// Writes a value of rows or of a variable.
pub fn push_atom(out: &mut Page, d: &Design, origin: &Origin, atom: &Atom) {
    match atom {
        Atom::One => out.push(b"1"),
        Atom::Var(x) => push_variable(out, d, origin, *x),
        Atom::Has(table, key) => {
            push_word(out, language::HAS);
            push_row(out, d, origin, *table, key.as_slice())
        }
        Atom::Col(table, key, column) => {
            push_row(out, d, origin, *table, key.as_slice());
            push_column(out, d, *table, *column)
        }
        Atom::Count(table, key) => {
            push_word(out, language::COUNT);
            push_row(out, d, origin, *table, key.as_slice())
        }
        Atom::Sum(table, key, column) => {
            push_word(out, language::SUM);
            push_row(out, d, origin, *table, key.as_slice());
            push_column(out, d, *table, *column)
        }
    }
}
