//! The statements of a step: reads, actions, targets, and the guards of its paths.
ghost use Rattle.std.specs.Prelude.{◌≡◌, ◌++◌, map, flat_map, OnOk};
ghost use Rattle.acc_parse_names.specs.Views.{scope_in};
ghost use Rattle.acc_parse_names.specs.Faults.{read_fault, action_fault, target_fault, path_faults, step_faults};

use crate::names::NameIndex;
use crate::rows::{cell_fault, place_fault};
use crate::scopes::Definitions;
use crate::values::{guard_fault, sum_fault, values_fault, variable_fault};
use acc_parse_syntax::trees::{ActionTree, PathTree, ReadTree, StepTree, TargetTree};
use std::alloc::AllocError;

/// Whether a read uses something that isn't defined.
fn read_fault<'a>(definitions: &Definitions<'_, 'a>, read: &'a ReadTree) -> bool
    ensures { result ≡ read_fault (scope_in definitions.now) read.now }
{
    let variables = definitions.variables;
    match read {
        ReadTree::Let(x, value) => variable_fault(variables, x) || sum_fault(variables, value),
        ReadTree::Get(x, cell) | ReadTree::Sum(x, cell) => {
            variable_fault(variables, x) || cell_fault(definitions, cell)
        }
        ReadTree::Has(x, place)
        | ReadTree::Count(x, place)
        | ReadTree::Least(x, place)
        | ReadTree::Greatest(x, place) => {
            variable_fault(variables, x) || place_fault(definitions, place)
        }
        ReadTree::Take(x) => variable_fault(variables, x),
        ReadTree::Mul(x, a, b) => {
            variable_fault(variables, x)
                || variable_fault(variables, a)
                || variable_fault(variables, b)
        }
        ReadTree::Div(x, a, _) => variable_fault(variables, x) || variable_fault(variables, a),
    }
}

/// Whether an action uses something that isn't defined.
fn action_fault<'a>(definitions: &Definitions<'_, 'a>, action: &'a ActionTree) -> bool
    ensures { result ≡ action_fault (scope_in definitions.now) action.now }
{
    let variables = definitions.variables;
    match action {
        ActionTree::Put(place, values) => {
            place_fault(definitions, place) || values_fault(variables, values)
        }
        ActionTree::Del(place) => place_fault(definitions, place),
        ActionTree::Set(cell, value) | ActionTree::Add(cell, value) => {
            cell_fault(definitions, cell) || sum_fault(variables, value)
        }
    }
}

/// Whether a target names no point of its type.
fn target_fault<'a>(points: &NameIndex<'a>, target: &'a TargetTree) -> bool
    ensures { result ≡ target_fault points.now target.now }
{
    match target {
        TargetTree::Goto(name) => !points.has(name),
        TargetTree::Commit | TargetTree::Undone | TargetTree::Refuse(_) => false,
    }
}

fn reads_faults<'a>(
    definitions: &Definitions<'_, 'a>,
    reads: &'a [ReadTree],
    faults: &mut Vec<bool>,
) -> Result<(), AllocError>
    ensures { OnOk result
        (faults.new.items ≡ faults.old.items ++ map (read_fault (scope_in definitions.now)) reads.now) }
{
    for read in reads {
        faults.push(read_fault(definitions, read))?;
    }
    Ok(())
}

fn actions_faults<'a>(
    definitions: &Definitions<'_, 'a>,
    actions: &'a [ActionTree],
    faults: &mut Vec<bool>,
) -> Result<(), AllocError>
    ensures { OnOk result
        (faults.new.items ≡ faults.old.items ++ map (action_fault (scope_in definitions.now)) actions.now) }
{
    for action in actions {
        faults.push(action_fault(definitions, action))?;
    }
    Ok(())
}

fn path_faults<'a>(
    definitions: &Definitions<'_, 'a>,
    points: &NameIndex<'a>,
    path: &'a PathTree,
    faults: &mut Vec<bool>,
) -> Result<(), AllocError>
    ensures { OnOk result
        (faults.new.items ≡ faults.old.items ++ path_faults (scope_in definitions.now) points.now path.now) }
{
    faults.push(guard_fault(definitions.variables, &path.guard))?;
    actions_faults(definitions, path.actions.as_slice(), faults)?;
    faults.push(target_fault(points, &path.target))?;
    Ok(())
}

fn paths_faults<'a>(
    definitions: &Definitions<'_, 'a>,
    points: &NameIndex<'a>,
    paths: &'a [PathTree],
    faults: &mut Vec<bool>,
) -> Result<(), AllocError>
    ensures { OnOk result
        (faults.new.items
        ≡ faults.old.items ++ flat_map (path_faults (scope_in definitions.now) points.now) paths.now) }
{
    for path in paths {
        path_faults(definitions, points, path, faults)?;
    }
    Ok(())
}

/// Puts behind `faults` whether each statement of a step has a fault.
pub fn step_faults<'a>(
    definitions: &Definitions<'_, 'a>,
    points: &NameIndex<'a>,
    step: &'a StepTree,
    faults: &mut Vec<bool>,
) -> Result<(), AllocError>
    ensures { OnOk result
        (faults.new.items ≡ faults.old.items ++ step_faults (scope_in definitions.now) points.now step.now) }
{
    faults.push(false)?;
    reads_faults(definitions, step.reads.as_slice(), faults)?;
    path_faults(definitions, points, &step.first, faults)?;
    paths_faults(definitions, points, step.others.as_slice(), faults)?;
    Ok(())
}
