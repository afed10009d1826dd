//! How forms and relations are printed: as they are spelled.
use acc_base::forms::{Atom, Form, Lin, Rel, Unknown};
use std::alloc::AllocError;
use std::fmt::Write;

fn push_lin(out: &mut String, lin: &Lin) -> Result<(), AllocError> {
    for (variable, number) in lin.coeffs.as_slice() {
        write!(out, "{number}*v{variable}+")?;
    }
    let constant = lin.constant;
    write!(out, "{constant}")
}

fn push_lins(out: &mut String, lins: &[Lin]) -> Result<(), AllocError> {
    let mut first = true;
    for lin in lins {
        if !first {
            out.push_str(",")?;
        }
        first = false;
        push_lin(out, lin)?;
    }
    Ok(())
}

fn push_row(out: &mut String, word: &str, key: &[Lin]) -> Result<(), AllocError> {
    write!(out, "{word}[")?;
    push_lins(out, key)?;
    out.push_str("]")
}

fn push_atom(out: &mut String, atom: &Atom) -> Result<(), AllocError> {
    match atom {
        Atom::One => out.push_str("one"),
        Atom::Var(variable) => write!(out, "v{variable}"),
        Atom::Has(_, key) => push_row(out, "has", key.as_slice()),
        Atom::Col(_, key, _) => push_row(out, "col", key.as_slice()),
        Atom::Count(_, key) => push_row(out, "count", key.as_slice()),
        Atom::Sum(_, key, _) => push_row(out, "sum", key.as_slice()),
    }
}

fn push_conditions(out: &mut String, under: &[Lin]) -> Result<(), AllocError> {
    if under.is_empty() {
        return Ok(());
    }
    out.push_str("{")?;
    push_lins(out, under)?;
    out.push_str("}")
}

/// A term and a space.
pub fn push_term(out: &mut String, unknown: &Unknown, number: i128) -> Result<(), AllocError> {
    write!(out, "{number}*")?;
    push_atom(out, &unknown.atom)?;
    push_conditions(out, unknown.under.as_slice())?;
    out.push_str(" ")
}

/// The terms of a form, and its constant.
pub fn push_form(out: &mut String, form: &Form) -> Result<(), AllocError> {
    for (unknown, number) in form.terms.as_slice() {
        push_term(out, unknown, *number)?;
    }
    let constant = form.constant;
    write!(out, "{constant}")
}

/// A form, and how it is to 0.
pub fn push_relation(out: &mut String, relation: &Rel) -> Result<(), AllocError> {
    push_form(out, &relation.form)?;
    out.push_str(if relation.equal { " = 0" } else { " <= 0" })
}
