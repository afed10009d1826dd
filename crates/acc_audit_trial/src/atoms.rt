//! The values of atoms.
ghost use Rattle.std.specs.Prelude.{◌≡◌, true, [], pos, map};
ghost use Rattle.std.specs.List.{list_all};
ghost use Rattle.acc_base.specs.Atoms.{key_of};
ghost use Rattle.acc_base.specs.Linear.{lin_values};
ghost use Rattle.acc_base.specs.Runnable.{IsKey};
ghost use Rattle.acc_base.specs.Tables.{has_row, column_of, count_of, sum_of};
ghost use Rattle.acc_base.specs.Truth.{atom_value};
ghost use Rattle.acc_audit_trial.specs.Worths.{is_near, unknown_worth};
ghost use Rattle.acc_audit_trial.specs.Trials.{AreKeyed};

use crate::values::{are_near, parts, value};
use acc_base::forms::{Atom, Lin, Unknown};
use acc_store::Store;

/// Whether there is a row, as a number.
fn row_there<S: Store>(s: &S, table: u32, key: &[i64]) -> i128
    ensures { result ≡ has_row (S.rows s.now) table key.now }
{
    if s.has(table, key) { 1 } else { 0 }
}

/// How many rows there are under a prefix.
fn rows_counted<S: Store>(s: &S, table: u32, prefix: &[i64]) -> i128
    ensures { result ≡ count_of (S.rows s.now) table prefix.now }
{
    s.count(table, prefix) as i128
}

/// Whether there is a row with a key, as a number.
fn has_at<S: Store>(s: &S, table: u32, key: &[Lin], values: &[i64]) -> i128
    requires keyed { AreKeyed (S.rows s.now) }
    requires key { IsKey key.now }
    requires near { list_all (is_near values.now) key.now ≡ true }
    ensures { result ≡ has_row (S.rows s.now) table (lin_values values.now key.now) }
{
    match parts(key, values) {
        Some(key) => row_there(s, table, key.as_slice()),
        None => 0,
    }
}

/// A column of the row with a key.
fn column_at<S: Store>(s: &S, table: u32, key: &[Lin], col: u32, values: &[i64]) -> i128
    requires keyed { AreKeyed (S.rows s.now) }
    requires key { IsKey key.now }
    requires near { list_all (is_near values.now) key.now ≡ true }
    ensures { result ≡ column_of (S.rows s.now) table (lin_values values.now key.now) col }
{
    match parts(key, values) {
        Some(key) => s.get(table, key.as_slice(), col),
        None => 0,
    }
}

/// How many rows there are under a prefix.
fn count_under<S: Store>(s: &S, table: u32, prefix: &[Lin], values: &[i64]) -> i128
    requires keyed { AreKeyed (S.rows s.now) }
    requires key { IsKey prefix.now }
    requires near { list_all (is_near values.now) prefix.now ≡ true }
    ensures { result ≡ count_of (S.rows s.now) table (lin_values values.now prefix.now) }
{
    match parts(prefix, values) {
        Some(prefix) => rows_counted(s, table, prefix.as_slice()),
        None => 0,
    }
}

/// The sum of a column of these rows.
fn sum_under<S: Store>(s: &S, table: u32, prefix: &[Lin], col: u32, values: &[i64]) -> i128
    requires keyed { AreKeyed (S.rows s.now) }
    requires key { IsKey prefix.now }
    requires near { list_all (is_near values.now) prefix.now ≡ true }
    ensures { result ≡ sum_of (S.rows s.now) table (lin_values values.now prefix.now) col }
{
    match parts(prefix, values) {
        Some(prefix) => s.sum(table, prefix.as_slice(), col),
        None => 0,
    }
}

/// The value of an atom.
fn atom_value<S: Store>(s: &S, atom: &Atom, values: &[i64]) -> i128
    requires keyed { AreKeyed (S.rows s.now) }
    requires key { IsKey (key_of atom.now) }
    requires near { list_all (is_near values.now) (key_of atom.now) ≡ true }
    ensures { result ≡ atom_value (S.rows s.now) values.now atom.now }
{
    match atom {
        Atom::One => 1,
        Atom::Var(x) => value(values, *x),
        Atom::Has(table, key) => has_at(s, *table, key.as_slice(), values),
        Atom::Col(table, key, col) => column_at(s, *table, key.as_slice(), *col, values),
        Atom::Count(table, prefix) => count_under(s, *table, prefix.as_slice(), values),
        Atom::Sum(table, prefix, col) => sum_under(s, *table, prefix.as_slice(), *col, values),
    }
}

/// What an unknown under which nothing stands is worth, and none where a number on the way lies beyond 2^120.
pub fn unknown_worth<S: Store>(s: &S, unknown: &Unknown, values: &[i64]) -> Option<i128>
    requires keyed { AreKeyed (S.rows s.now) }
    requires bare { unknown.now.under ≡ [] }
    requires key { IsKey (key_of unknown.now.atom) }
    ensures { result ≡ unknown_worth (S.rows s.now) values.now unknown.now }
{
    if are_near(unknown.atom.key(), values) {
        Some(atom_value(s, &unknown.atom, values))
    } else {
        None
    }
}
