//! The statements of a type: its head, its clauses, its points.
ghost use Rattle.std.specs.Prelude.{◌≡◌, ◌++◌, [], not, map, IfOk, OnOk};
ghost use Rattle.std.specs.List.{list_any};
ghost use Rattle.acc_parse_names.specs.Names.{stands_in, listed};
ghost use Rattle.acc_parse_names.specs.Scopes.{locals_of, points_in, point_names};
ghost use Rattle.acc_parse_names.specs.Views.{variables_in, scope_in};
ghost use Rattle.acc_parse_names.specs.Members.{members_of};
ghost use Rattle.acc_parse_names.specs.Faults.{variant_faults, returns_faults, head_faults, point_faults, points_faults, type_faults};
ghost use Rattle.acc_parse_names.specs.Faults.{types_faults};
ghost use Rattle.acc_parse_names.specs.Bodies.{body_faults};

use crate::clauses::clauses_faults;
use crate::members::{Members, Types};
use crate::names::NameIndex;
use crate::scopes::{Definitions, Variables};
use crate::steps::step_faults;
use crate::tables::Tables;
use crate::values::sum_fault;
use acc_base::sequences::Text;
use acc_parse_syntax::trees::{Names, PointTree, Sum, TypeTree};
use std::alloc::{AllocError, Global};

fn any_undefined<'a>(locals: &NameIndex<'a>, names: &'a [Text]) -> bool
    ensures { result ≡ list_any (λ x. not (stands_in x locals.now)) names.now }
{
    for name in names {
        if !locals.has(name) {
            return true;
        }
    }
    false
}

/// Whether one of the names is no local.
fn is_undefined_in<'a>(locals: &NameIndex<'a>, names: &'a Names) -> bool
    ensures { result ≡ list_any (λ x. not (stands_in x locals.now)) (listed names.now) }
{
    !locals.has(&names.first) || any_undefined(locals, names.others.as_slice())
}

fn returns_faults<'a>(
    locals: &NameIndex<'a>,
    returns: &'a Option<Names>,
    faults: &mut Vec<bool>,
) -> Result<(), AllocError>
    ensures { OnOk result
        (faults.new.items ≡ faults.old.items ++ returns_faults locals.now returns.now) }
{
    if let Some(names) = returns {
        faults.push(is_undefined_in(locals, names))?;
    }
    Ok(())
}

/// Puts the locals of a type into `locals`, which is empty, and behind `faults` whether each statement of its head has a fault;
/// `again` says that its name has one.
fn head_faults<'a>(
    again: bool,
    tree: &'a TypeTree,
    locals: &mut NameIndex<'a>,
    faults: &mut Vec<bool>,
) -> Result<(), AllocError>
    requires { locals.old ≡ [] }
    ensures locals { OnOk result (locals.new ≡ locals_of tree.now) }
    ensures faults { OnOk result
        (faults.new.items ≡ faults.old.items ++ head_faults again tree.now) }
{
    let params_again = locals.add_all(tree.params.as_slice())?;
    let locals_again = locals.add_listed(&tree.locals)?;
    faults.push(again || params_again)?;
    faults.push(false)?;
    returns_faults(locals, &tree.returns, faults)?;
    if tree.locals.is_some() {
        faults.push(locals_again)?;
    }
    Ok(())
}

/// Puts the names of a type's points into `points`, which is empty.
fn add_points<'a>(points: &mut NameIndex<'a>, tree: &'a TypeTree) -> Result<(), AllocError>
    requires { points.old ≡ [] }
    ensures { OnOk result (points.new ≡ point_names tree.now) }
{
    points.add(&tree.first.name)?;
    for point in tree.others.as_slice() {
        points.add(&point.name)?;
    }
    Ok(())
}

fn variant_faults<'a>(
    variables: &Variables<'_, 'a>,
    variant: &'a Option<Sum>,
    faults: &mut Vec<bool>,
) -> Result<(), AllocError>
    ensures { OnOk result
        (faults.new.items ≡ faults.old.items ++ variant_faults (variables_in variables.now) variant.now) }
{
    if let Some(value) = variant {
        faults.push(sum_fault(variables, value))?;
    }
    Ok(())
}

/// Puts behind `faults` whether each statement of a point has a fault; `again` says that its name has one.
fn point_faults<'a>(
    alloc: Global,
    definitions: &Definitions<'_, 'a>,
    points: &NameIndex<'a>,
    again: bool,
    point: &'a PointTree,
    faults: &mut Vec<bool>,
) -> Result<(), AllocError>
    requires { definitions.now.variables.now.own.now ≡ [] }
    ensures { OnOk result
        (faults.new.items
        ≡ faults.old.items ++ point_faults (scope_in definitions.now) points.now again point.now) }
{
    faults.push(again)?;
    variant_faults(definitions.variables, &point.variant, faults)?;
    clauses_faults(alloc, definitions, point.holds.as_slice(), faults)?;
    step_faults(definitions, points, point.next.get(), faults)?;
    step_faults(definitions, points, point.undo.get(), faults)?;
    Ok(())
}

fn points_faults<'a>(
    alloc: Global,
    definitions: &Definitions<'_, 'a>,
    points: &NameIndex<'a>,
    tree: &'a TypeTree,
    faults: &mut Vec<bool>,
) -> Result<(), AllocError>
    requires { definitions.now.variables.now.own.now ≡ [] }
    ensures { OnOk result
        (faults.new.items
        ≡ faults.old.items ++ points_faults (scope_in definitions.now) points.now [] (points_in tree.now)) }
{
    let mut earlier = NameIndex::new(alloc);
    earlier.add(&tree.first.name)?;
    point_faults(alloc, definitions, points, false, &tree.first, faults)?;
    for point in tree.others.as_slice() {
        let again = earlier.add(&point.name)?;
        point_faults(alloc, definitions, points, again, point, faults)?;
    }
    Ok(())
}

/// Puts behind `faults` whether each statement of a type behind its head has a fault.
fn body_faults<'a>(
    alloc: Global,
    tables: &Tables<'a>,
    members: &Members<'a>,
    tree: &'a TypeTree,
    faults: &mut Vec<bool>,
) -> Result<(), AllocError>
    requires { members.now ≡ members_of tree.now }
    ensures { OnOk result
        (faults.new.items ≡ faults.old.items ++ body_faults tables.now.trees.now tree.now) }
{
    let own = NameIndex::new(alloc);
    let variables = Variables {
        locals: &members.locals,
        own: &own,
    };
    let definitions = Definitions {
        tables,
        variables: &variables,
    };
    clauses_faults(alloc, &definitions, tree.ensured.as_slice(), faults)?;
    clauses_faults(alloc, &definitions, tree.repaired.as_slice(), faults)?;
    points_faults(alloc, &definitions, &members.points, tree, faults)?;
    Ok(())
}

/// The locals and points of a type; behind `faults`, whether each of its statements has a fault. `again` says that its name has one.
fn type_faults<'a>(
    alloc: Global,
    tables: &Tables<'a>,
    again: bool,
    tree: &'a TypeTree,
    faults: &mut Vec<bool>,
) -> Result<Members<'a>, AllocError>
    ensures members { IfOk result (λ m. m ≡ members_of tree.now) }
    ensures faults { OnOk result
        (faults.new.items ≡ faults.old.items ++ type_faults tables.now.trees.now again tree.now) }
{
    let mut members = Members {
        locals: NameIndex::new(alloc),
        points: NameIndex::new(alloc),
    };
    head_faults(again, tree, &mut members.locals, faults)?;
    add_points(&mut members.points, tree)?;
    body_faults(alloc, tables, &members, tree, faults)?;
    Ok(members)
}

/// The types; behind `faults`, whether each of their statements has a fault.
pub fn types_faults<'a>(
    alloc: Global,
    tables: &Tables<'a>,
    trees: &'a [TypeTree],
    faults: &mut Vec<bool>,
) -> Result<Types<'a>, AllocError>
    ensures types { IfOk result (λ t. t.trees.now ≡ trees.now) }
    ensures faults { OnOk result
        (faults.new.items ≡ faults.old.items ++ types_faults tables.now.trees.now [] trees.now) }
{
    let mut names = NameIndex::new(alloc);
    let mut members = Vec::new(alloc);
    for tree in trees {
        let again = names.add(&tree.name)?;
        members.push(type_faults(alloc, tables, again, tree, faults)?)?;
    }
    Ok(Types {
        trees,
        names,
        members,
    })
}
