//! How long keys and prefixes are, and whose rows private tables hold.
ghost use Rattle.std.specs.Prelude.{◌≡◌, slice_get};
ghost use Rattle.std.specs.List.{list_all};
ghost use Rattle.acc_formed.specs.Widths.{is_key, is_prefix, fills, atom_fits, product_fits, rel_fits, clause_fits, read_fits, action_fits};
ghost use Rattle.acc_formed.specs.Widths.{is_short_prefix, read_leaves_a_component, is_once, is_variable, is_own_key, may_write};
ghost use Rattle.acc_formed.specs.Widths.{action_is_own};

use acc_base::forms::{Atom, Clause, Lin, Rel, Unknown};
use acc_base::steps::{Action, Read};
use acc_base::tables::Table;

fn is_key(tables: &[Table], table: u32, key: &[Lin]) -> bool
    ensures { result ≡ is_key (slice_get tables.now table) key.now }
{
    match tables.get(table as usize) {
        None => false,
        Some(t) => key.len() == t.width as usize,
    }
}

fn is_prefix(tables: &[Table], table: u32, prefix: &[Lin]) -> bool
    ensures { result ≡ is_prefix (slice_get tables.now table) prefix.now }
{
    match tables.get(table as usize) {
        None => false,
        Some(t) => 1 <= prefix.len() && prefix.len() <= t.width as usize,
    }
}

fn fills(tables: &[Table], table: u32, values: &[Lin]) -> bool
    ensures { result ≡ fills (slice_get tables.now table) values.now }
{
    match tables.get(table as usize) {
        None => false,
        Some(t) => values.len() == t.cols.len(),
    }
}

fn atom_fits(tables: &[Table], atom: &Atom) -> bool
    ensures { result ≡ atom_fits tables.now atom.now }
{
    match atom.table() {
        None => true,
        Some(table) if atom.is_of_prefix() => is_prefix(tables, table, atom.key()),
        Some(table) => is_key(tables, table, atom.key()),
    }
}

fn product_fits(tables: &[Table], product: &(Unknown, i128)) -> bool
    ensures { result ≡ product_fits tables.now product.now }
{
    atom_fits(tables, &product.0.atom)
}

fn rel_fits(tables: &[Table], rel: &Rel) -> bool
    ensures { result ≡ rel_fits tables.now rel.now }
{
    let terms = rel.form.terms.as_slice();
    terms.iter().all(|t| product_fits(tables, t))
}

fn all_rels_fit(tables: &[Table], rels: &[Rel]) -> bool
    ensures { result ≡ list_all (rel_fits tables.now) rels.now }
{
    rels.iter().all(|r| rel_fits(tables, r))
}

/// Whether each atom of a clause names a key as long as its table's, or a prefix that is not longer.
pub fn clause_fits(tables: &[Table], clause: &Clause) -> bool
    ensures { result ≡ clause_fits tables.now clause.now }
{
    all_rels_fit(tables, clause.guards.as_slice()) && rel_fits(tables, &clause.rel)
}

/// Whether a read names a key as long as its table's, or a prefix that is not longer.
pub fn read_fits(tables: &[Table], read: &Read) -> bool
    ensures { result ≡ read_fits tables.now read.now }
{
    match read {
        Read::Col(_, table, key, _) | Read::Has(_, table, key) => {
            is_key(tables, *table, key.as_slice())
        }
        Read::Count(_, table, prefix) | Read::Sum(_, table, prefix, _) => {
            is_prefix(tables, *table, prefix.as_slice())
        }
        Read::Let(_, _)
        | Read::Least(_, _, _)
        | Read::Greatest(_, _, _)
        | Read::Take(_)
        | Read::Mul(_, _, _)
        | Read::Div(_, _, _) => true,
    }
}

/// Whether an action names a key as long as its table's, and puts a value a column.
pub fn action_fits(tables: &[Table], action: &Action) -> bool
    ensures { result ≡ action_fits tables.now action.now }
{
    match action {
        Action::Put(table, key, values) => {
            is_key(tables, *table, key.as_slice()) && fills(tables, *table, values.as_slice())
        }
        Action::Del(table, key) | Action::Set(table, key, _, _) | Action::Add(table, key, _, _) => {
            is_key(tables, *table, key.as_slice())
        }
    }
}

fn is_short_prefix(tables: &[Table], table: u32, prefix: &[Lin]) -> bool
    ensures { result ≡ is_short_prefix (slice_get tables.now table) prefix.now }
{
    match tables.get(table as usize) {
        None => false,
        Some(t) => prefix.len() < t.width as usize,
    }
}

/// Whether there is a component behind the prefix that a read looks for the least or greatest of.
pub fn read_leaves_a_component(tables: &[Table], read: &Read) -> bool
    ensures { result ≡ read_leaves_a_component tables.now read.now }
{
    match read {
        Read::Least(_, table, prefix) | Read::Greatest(_, table, prefix) => {
            is_short_prefix(tables, *table, prefix.as_slice())
        }
        Read::Let(_, _)
        | Read::Col(_, _, _, _)
        | Read::Has(_, _, _)
        | Read::Count(_, _, _)
        | Read::Sum(_, _, _, _)
        | Read::Take(_)
        | Read::Mul(_, _, _)
        | Read::Div(_, _, _) => true,
    }
}

/// Whether there is one coefficient: the variable, once.
fn is_once(x: usize, coeffs: &[(u32, i64)]) -> bool
    ensures { result ≡ is_once x coeffs.now }
{
    match coeffs {
        [t] => t.0 as usize == x && t.1 == 1,
        _ => false,
    }
}

fn is_variable(x: usize, lin: &Lin) -> bool
    ensures { result ≡ is_variable x lin.now }
{
    is_once(x, lin.coeffs.as_slice()) && lin.constant == 0
}

fn is_own_key(me: usize, key: &[Lin]) -> bool
    ensures { result ≡ is_own_key me key.now }
{
    match key.last() {
        None => false,
        Some(lin) => is_variable(me, lin),
    }
}

fn may_write(tables: &[Table], me: usize, table: u32, key: &[Lin]) -> bool
    ensures { result ≡ may_write (slice_get tables.now table) me key.now }
{
    match tables.get(table as usize) {
        None => false,
        Some(t) => !t.own || is_own_key(me, key),
    }
}

/// Whether an action writes to a private table only where `self`, which is this variable, ends the key.
pub fn action_is_own(tables: &[Table], me: usize, action: &Action) -> bool
    ensures { result ≡ action_is_own tables.now me action.now }
{
    match action {
        Action::Put(table, key, _)
        | Action::Del(table, key)
        | Action::Set(table, key, _, _)
        | Action::Add(table, key, _, _) => may_write(tables, me, *table, key.as_slice()),
    }
}
