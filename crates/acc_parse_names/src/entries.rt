//! Entries and hints: whether their types, points and variables are defined.
ghost use Rattle.std.specs.Prelude.{◌≡◌, ◌++◌, [], map, OnOk};
ghost use Rattle.std.specs.List.{list_any};
ghost use Rattle.acc_parse_names.specs.Views.{variables_in};
ghost use Rattle.acc_parse_names.specs.Faults.{pair_fault, pairs_fault, entry_fault, hint_fault};

use crate::members::Types;
use crate::names::NameIndex;
use crate::scopes::Variables;
use crate::values::{sum_fault, variable_fault};
use acc_parse_syntax::trees::{EntryTree, HintTree, PairTree, Pairs};
use std::alloc::{AllocError, Global};

fn pair_fault<'a>(held: &Variables<'_, 'a>, step: &Variables<'_, 'a>, pair: &'a PairTree) -> bool
    ensures { result ≡ pair_fault (variables_in held.now) (variables_in step.now) pair.now }
{
    variable_fault(held, &pair.held) || variable_fault(step, &pair.step)
}

fn any_pair_fault<'a>(
    held: &Variables<'_, 'a>,
    step: &Variables<'_, 'a>,
    pairs: &'a [PairTree],
) -> bool
    ensures { result ≡ list_any (pair_fault (variables_in held.now) (variables_in step.now)) pairs.now }
{
    for pair in pairs {
        if pair_fault(held, step, pair) {
            return true;
        }
    }
    false
}

fn pairs_fault<'a>(
    held: &Variables<'_, 'a>,
    step: &Variables<'_, 'a>,
    pairs: &'a Option<Pairs>,
) -> bool
    ensures { result ≡ pairs_fault (variables_in held.now) (variables_in step.now) pairs.now }
{
    match pairs {
        Some(pairs) => {
            pair_fault(held, step, &pairs.first)
                || any_pair_fault(held, step, pairs.others.as_slice())
        }
        None => false,
    }
}

/// Whether an entry uses something that isn't defined; `none` has no names.
fn entry_fault<'a>(types: &Types<'a>, none: &NameIndex<'a>, entry: &'a EntryTree) -> bool
    requires { none.now ≡ [] }
    ensures { result ≡ entry_fault types.now.trees.now entry.now }
{
    let Some(held) = types.members_of(&entry.held.type_name) else {
        return true;
    };
    let Some(by) = types.members_of(&entry.by.type_name) else {
        return true;
    };
    let standing = Variables {
        locals: &held.locals,
        own: none,
    };
    let stepping = Variables {
        locals: &by.locals,
        own: none,
    };
    !held.points.has(&entry.held.point)
        || !by.points.has(&entry.by.point)
        || pairs_fault(&standing, &stepping, &entry.pairs)
}

/// Whether a hint uses something that isn't defined; `none` has no names.
fn hint_fault<'a>(types: &Types<'a>, none: &NameIndex<'a>, hint: &'a HintTree) -> bool
    requires { none.now ≡ [] }
    ensures { result ≡ hint_fault types.now.trees.now hint.now }
{
    let Some(of) = types.members_of(&hint.of.type_name) else {
        return true;
    };
    let variables = Variables {
        locals: &of.locals,
        own: none,
    };
    !of.points.has(&hint.of.point) || sum_fault(&variables, &hint.value)
}

/// Puts behind `faults` whether each entry has a fault.
pub fn entries_faults<'a>(
    alloc: Global,
    types: &Types<'a>,
    entries: &'a [EntryTree],
    faults: &mut Vec<bool>,
) -> Result<(), AllocError>
    ensures { OnOk result
        (faults.new.items ≡ faults.old.items ++ map (entry_fault types.now.trees.now) entries.now) }
{
    let none = NameIndex::new(alloc);
    for entry in entries {
        faults.push(entry_fault(types, &none, entry))?;
    }
    Ok(())
}

/// Puts behind `faults` whether each hint has a fault.
pub fn hints_faults<'a>(
    alloc: Global,
    types: &Types<'a>,
    hints: &'a [HintTree],
    faults: &mut Vec<bool>,
) -> Result<(), AllocError>
    ensures { OnOk result
        (faults.new.items ≡ faults.old.items ++ map (hint_fault types.now.trees.now) hints.now) }
{
    let none = NameIndex::new(alloc);
    for hint in hints {
        faults.push(hint_fault(types, &none, hint))?;
    }
    Ok(())
}
