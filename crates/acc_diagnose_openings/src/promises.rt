//! Assertions to be held at a point, as a design spells them.
use crate::names::{locals_of, resting_at};
use crate::values::{push_lin, push_row, push_word};
use acc_base::designs::{At, Design};
use acc_base::forms::Lin;
use acc_base::sequences::Text;
use acc_base::tables::Table;
use acc_lex::language;
use acc_page::{Page, push_at};

/// The letters that stand behind a `forall`, those that come first to mind first.
const LETTERS: &[u8] = b"xyzuvwabcdefghijklmnopqrst";

fn is_named(locals: &[Text], letter: u8) -> bool {
    for local in locals {
        if local.as_slice() == [letter].as_slice() {
            return true;
        }
    }
    false
}

/// Writes the letter with this number, from 0, among those that are no local's name.
fn push_letter(out: &mut Page, locals: &[Text], number: usize) {
    let mut left = number;
    for letter in LETTERS {
        if !is_named(locals, *letter) {
            if left == 0 {
                return out.push(&[*letter]);
            }
            left -= 1;
        }
    }
    out.push(b"..")
}

/// How many components the keys of an own table have before the transaction's number.
fn fronts(table: &Table) -> usize {
    (table.width as usize).saturating_sub(1)
}

/// Writes the letters of all rows of an own table behind `forall`, if it takes any.
fn push_forall(out: &mut Page, locals: &[Text], table: &Table) {
    if fronts(table) == 0 {
        return;
    }
    push_word(out, language::FORALL);
    for i in 0..fronts(table) {
        push_letter(out, locals, i);
        out.push(b" ");
    }
    out.push(b": ")
}

/// Begins an assertion of a point.
pub fn push_holds(out: &mut Page) {
    out.push(b"`");
    push_word(out, language::HOLDS)
}

/// Writes that any row of an own table that is the transaction's is there, or isn't, up to the number.
fn push_any(out: &mut Page, locals: &[Text], table: &Table) {
    push_holds(out);
    push_forall(out, locals, table);
    push_word(out, language::HAS);
    out.push(table.name.as_slice());
    out.push(b"[");
    for i in 0..fronts(table) {
        push_letter(out, locals, i);
        out.push(b", ");
    }
    out.push(language::ONESELF);
    out.push(b"] = ")
}

/// Writes at which point something is to be held.
pub fn push_where(out: &mut Page, d: &Design, at: At) {
    out.push(b" at `");
    push_at(out, d, at);
    out.push(b"`")
}

/// Writes that a transaction at a point has no rows of an own table.
pub fn push_none(out: &mut Page, d: &Design, at: At, table: &Table) {
    push_any(out, locals_of(d, at), table);
    out.push(b"0`");
    push_where(out, d, at)
}

/// Writes that a transaction at a point has no other row of an own table than that of a key.
pub fn push_only(out: &mut Page, d: &Design, at: At, table: &Table, key: &[Lin]) {
    let locals = locals_of(d, at);
    let mut before: &[u8] = b"";
    for (i, part) in key.iter().enumerate().take(fronts(table)) {
        out.push(before);
        push_any(out, locals, table);
        out.push(b"1 => ");
        push_letter(out, locals, i);
        out.push(b" = ");
        push_lin(out, d, &resting_at(at), part);
        out.push(b"`");
        before = b", ";
    }
    push_where(out, d, at)
}

/// Writes that a row is there at a point.
pub fn push_there(out: &mut Page, d: &Design, at: At, table: u32, key: &[Lin]) {
    push_holds(out);
    push_word(out, language::HAS);
    push_row(out, d, &resting_at(at), table, key);
    out.push(b" = 1`");
    push_where(out, d, at)
}
