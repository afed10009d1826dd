//! The values over which a variable of a clause ranges.
ghost use Rattle.std.specs.Prelude.{◌≡◌, IfOk, OnOk, ◌&&◌, pos, ◌||◌};
ghost use Rattle.std.specs.List.{list_any};
ghost use Rattle.acc_formed.specs.Widths.{is_variable};
ghost use Rattle.acc_audit_ranges.specs.Ranges.{Adds, IsRange, parts_have, key_gives, atom_gives, term_gives, rel_gives, clause_gives};

use crate::keyed::KeyedStore;
use crate::values::{add, add_all, listed};
use acc_base::forms::{Atom, Clause, Lin, Rel, Unknown};
use acc_base::sequences::Seq;
use acc_store::Store;
use std::alloc::{AllocError, Global};
use std::collections::BTreeSet;

/// Whether a linear value is a variable alone.
fn is_variable(variable: u32, l: &Lin) -> bool
    ensures { result ≡ is_variable variable l.now }
{
    match l.coeffs.as_slice() {
        [(x, 1)] => *x == variable && l.constant == 0,
        _ => false,
    }
}

/// Adds what rows have at a place of their keys, if a variable stands there alone.
fn add_at<S: Store>(
    s: &KeyedStore<S>,
    table: u32,
    place: usize,
    l: &Lin,
    variable: u32,
    values: &mut BTreeSet<i64>,
) -> Result<(), AllocError>
    ensures { OnOk result (Adds (λ q. is_variable variable l.now && parts_have s.now table place q) values.old values.new) }
{
    if is_variable(variable, l) {
        s.add_parts(table, place, values)
    } else {
        Ok(())
    }
}

/// Adds what rows have where a variable stands alone in a key.
fn add_key<S: Store>(
    s: &KeyedStore<S>,
    table: u32,
    key: &[Lin],
    variable: u32,
    values: &mut BTreeSet<i64>,
) -> Result<(), AllocError>
    ensures { OnOk result (Adds (λ q. key_gives s.now table variable q 0 key.now) values.old values.new) }
{
    for place in 0..key.len() {
        add_at(s, table, place, &key[place], variable, values)?;
    }
    Ok(())
}

/// The same of an atom's key or prefix.
fn add_atom<S: Store>(
    s: &KeyedStore<S>,
    atom: &Atom,
    variable: u32,
    values: &mut BTreeSet<i64>,
) -> Result<(), AllocError>
    ensures { OnOk result (Adds (λ q. atom_gives s.now variable q atom.now) values.old values.new) }
{
    match atom.table() {
        Some(table) => add_key(s, table, atom.key(), variable, values),
        None => Ok(()),
    }
}

/// The same of an atom with its coefficient.
fn add_term<S: Store>(
    s: &KeyedStore<S>,
    term: &(Unknown, i128),
    variable: u32,
    values: &mut BTreeSet<i64>,
) -> Result<(), AllocError>
    ensures { OnOk result (Adds (λ q. term_gives s.now variable q term.now) values.old values.new) }
{
    add_atom(s, &term.0.atom, variable, values)
}

/// The same of the terms of a form.
fn add_terms<S: Store>(
    s: &KeyedStore<S>,
    terms: &[(Unknown, i128)],
    variable: u32,
    values: &mut BTreeSet<i64>,
) -> Result<(), AllocError>
    ensures { OnOk result (Adds (λ q. list_any (term_gives s.now variable q) terms.now) values.old values.new) }
{
    for term in terms {
        add_term(s, term, variable, values)?;
    }
    Ok(())
}

/// The same of a relation.
fn add_rel<S: Store>(
    s: &KeyedStore<S>,
    rel: &Rel,
    variable: u32,
    values: &mut BTreeSet<i64>,
) -> Result<(), AllocError>
    ensures { OnOk result (Adds (λ q. rel_gives s.now variable q rel.now) values.old values.new) }
{
    add_terms(s, rel.form.terms.as_slice(), variable, values)
}

/// The same of guards.
fn add_guards<S: Store>(
    s: &KeyedStore<S>,
    guards: &[Rel],
    variable: u32,
    values: &mut BTreeSet<i64>,
) -> Result<(), AllocError>
    ensures { OnOk result (Adds (λ q. list_any (rel_gives s.now variable q) guards.now) values.old values.new) }
{
    for guard in guards {
        add_rel(s, guard, variable, values)?;
    }
    Ok(())
}

/// The same of a clause.
fn add_clause<S: Store>(
    s: &KeyedStore<S>,
    clause: &Clause,
    variable: u32,
    values: &mut BTreeSet<i64>,
) -> Result<(), AllocError>
    ensures { OnOk result (Adds (λ q. clause_gives s.now variable q clause.now) values.old values.new) }
{
    add_guards(s, clause.guards.as_slice(), variable, values)?;
    add_rel(s, &clause.rel, variable, values)
}

/// The values over which a variable of a clause ranges, in ascending order: 0, the values of the variables outside the clause, and what
/// rows have in their keys at each place where the variable stands alone in an atom of the clause.
///
/// The answer fails where memory ran out. The cost is a walk over the places of rows for each place where the variable stands alone.
pub fn range<S: Store>(
    alloc: Global,
    s: &KeyedStore<S>,
    clause: &Clause,
    outside: &[i64],
    variable: u32,
) -> Result<Seq<i64>, AllocError>
    ensures { IfOk result (IsRange s.now outside.now clause.now variable) }
{
    let mut values = BTreeSet::new(alloc);
    add(&mut values, 0)?;
    add_all(&mut values, outside)?;
    add_clause(s, clause, variable, &mut values)?;
    listed(alloc, &values)
}
