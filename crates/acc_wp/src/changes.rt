//! What an action adds to the value of an atom.
ghost use Rattle.std.specs.Prelude.{◌≡◌, ◌++◌, IfOk, OnOk, option_copied};
ghost use Rattle.acc_instanced.specs.Summands.{lin_parts};
ghost use Rattle.acc_preconditions.specs.Changes.{key_of, value_parts, minus, presence_change, column_change, presence_of};
ghost use Rattle.acc_preconditions.specs.Changes.{column_of, change};

use acc_base::forms::{Atom, Lin};
use acc_base::sequences::{Seq, copied};
use acc_base::steps::Action;
use acc_instances::summands::add_lin;
use std::alloc::{AllocError, Global};

/// The key of an action.
pub fn key_of(action: &Action) -> &Seq<Lin>
    ensures { result.now ≡ key_of action.now }
{
    match action {
        Action::Put(_, key, _) | Action::Del(_, key) => key,
        Action::Set(_, key, _, _) | Action::Add(_, key, _, _) => key,
    }
}

/// Takes the old value away.
fn take_old(parts: &mut Vec<(Atom, i64)>, old: Atom) -> Result<(), AllocError>
    ensures { OnOk result (parts.new.items ≡ parts.old.items ++ minus old) }
{
    parts.push((old, -1))?;
    Ok(())
}

/// Adds a value, and takes the old one away.
fn add_new(parts: &mut Vec<(Atom, i64)>, value: &Lin, old: Atom) -> Result<(), AllocError>
    ensures { OnOk result (parts.new.items ≡ parts.old.items ++ (lin_parts value.now ++ minus old)) }
{
    add_lin(parts, value)?;
    take_old(parts, old)
}

/// Adds what a row that is put adds to a column and to a sum of it.
fn add_put(parts: &mut Vec<(Atom, i64)>, value: Option<&Lin>, old: Atom) -> Result<(), AllocError>
    ensures { OnOk result (parts.new.items ≡ parts.old.items ++ (value_parts (option_copied value.entry) ++ minus old)) }
{
    match value {
        Some(value) => add_new(parts, value, old),
        None => take_old(parts, old),
    }
}

/// Adds what an action adds to whether a row of its table is there, and to a count of rows.
fn add_presence_change(
    parts: &mut Vec<(Atom, i64)>,
    action: &Action,
    old: Atom,
) -> Result<(), AllocError>
    ensures { OnOk result (parts.new.items ≡ parts.old.items ++ presence_change action.now old) }
{
    match action {
        Action::Put(_, _, _) => {
            parts.push((Atom::One, 1))?;
            take_old(parts, old)
        }
        Action::Del(_, _) => take_old(parts, old),
        Action::Set(_, _, _, _) | Action::Add(_, _, _, _) => Ok(()),
    }
}

/// What an action adds to whether a row of its table is there, and to a count of rows.
fn presence_change(
    alloc: Global,
    action: &Action,
    old: Atom,
) -> Result<Vec<(Atom, i64)>, AllocError>
    ensures { IfOk result (λ v. v.items ≡ presence_change action.now old) }
{
    let mut parts = Vec::new(alloc);
    add_presence_change(&mut parts, action, old)?;
    Ok(parts)
}

/// Adds what an action adds to a column of a row of its table, and to a sum of that column.
fn add_column_change(
    parts: &mut Vec<(Atom, i64)>,
    action: &Action,
    column: u32,
    old: Atom,
) -> Result<(), AllocError>
    ensures { OnOk result (parts.new.items ≡ parts.old.items ++ column_change action.now column old) }
{
    match action {
        Action::Put(_, _, values) => add_put(parts, values.as_slice().get(column as usize), old),
        Action::Del(_, _) => take_old(parts, old),
        Action::Set(_, _, own, value) if *own == column => add_new(parts, value, old),
        Action::Add(_, _, own, value) if *own == column => add_lin(parts, value),
        Action::Set(_, _, _, _) | Action::Add(_, _, _, _) => Ok(()),
    }
}

/// What an action adds to a column of a row of its table, and to a sum of that column.
fn column_change(
    alloc: Global,
    action: &Action,
    column: u32,
    old: Atom,
) -> Result<Vec<(Atom, i64)>, AllocError>
    ensures { IfOk result (λ v. v.items ≡ column_change action.now column old) }
{
    let mut parts = Vec::new(alloc);
    add_column_change(&mut parts, action, column, old)?;
    Ok(parts)
}

/// What an action adds to whether the row with this table and key is there.
fn presence_of(
    alloc: Global,
    action: &Action,
    table: u32,
    key: &Seq<Lin>,
) -> Result<Vec<(Atom, i64)>, AllocError>
    ensures { IfOk result (λ v. v.items ≡ presence_of action.now table key.now) }
{
    if action.table() != table {
        return Ok(Vec::new(alloc));
    }
    presence_change(alloc, action, Atom::Has(table, copied(key)?))
}

/// What an action adds to a column of the row with this table and key.
fn column_of(
    alloc: Global,
    action: &Action,
    table: u32,
    key: &Seq<Lin>,
    column: u32,
) -> Result<Vec<(Atom, i64)>, AllocError>
    ensures { IfOk result (λ v. v.items ≡ column_of action.now table key.now column) }
{
    if action.table() != table {
        return Ok(Vec::new(alloc));
    }
    let old = Atom::Col(table, copied(key)?, column);
    column_change(alloc, action, column, old)
}

/// What an action adds to an atom, where its key is the atom's key or begins with its prefix.
pub fn change(alloc: Global, action: &Action, atom: &Atom) -> Result<Vec<(Atom, i64)>, AllocError>
    ensures { IfOk result (λ v. v.items ≡ change action.now atom.now) }
{
    match atom {
        Atom::One | Atom::Var(_) => Ok(Vec::new(alloc)),
        Atom::Has(table, key) => presence_of(alloc, action, *table, key),
        Atom::Col(table, key, column) => column_of(alloc, action, *table, key, *column),
        Atom::Count(table, _) => presence_of(alloc, action, *table, key_of(action)),
        Atom::Sum(table, _, column) => column_of(alloc, action, *table, key_of(action), *column),
    }
}
