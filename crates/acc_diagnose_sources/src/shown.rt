//! Which statements of a tree are printed.
ghost use Rattle.std.specs.Prelude.{◌≡◌, ◌++◌, ◌∷◌, OnOk, IfOk};
ghost use Rattle.std.specs.List.{flat_map};
ghost use Rattle.acc_diagnose_sources.specs.Shown.{each_shown, if_shown, beside, shown_path, shown_step, shown_variant};
ghost use Rattle.acc_diagnose_sources.specs.Shown.{shown_point, shown_type, shown};

use acc_base::designs::{Design, Point, TxType};
use acc_base::forms::Lin;
use acc_parse_syntax::trees::{DesignTree, PathTree, PointTree, StepTree, Sum, TypeTree};
use std::alloc::{AllocError, Global};

/// A statement an item.
fn push_each<T>(shown: &mut Vec<bool>, items: &[T]) -> Result<(), AllocError>
    ensures { OnOk result (shown.new.items ≡ shown.old.items ++ each_shown items.now) }
{
    for _ in items {
        shown.push(true)?;
    }
    Ok(())
}

/// A statement that may be left out.
fn push_if<T>(shown: &mut Vec<bool>, item: &Option<T>) -> Result<(), AllocError>
    ensures { OnOk result (shown.new.items ≡ shown.old.items ++ if_shown item.now) }
{
    if item.is_some() {
        shown.push(true)?;
    }
    Ok(())
}

fn push_path(shown: &mut Vec<bool>, path: &PathTree) -> Result<(), AllocError>
    ensures { OnOk result (shown.new.items ≡ shown.old.items ++ shown_path path.now) }
{
    shown.push(true)?;
    push_each(shown, path.actions.as_slice())?;
    shown.push(true)?;
    Ok(())
}

fn push_paths(shown: &mut Vec<bool>, paths: &[PathTree]) -> Result<(), AllocError>
    ensures { OnOk result (shown.new.items ≡ shown.old.items ++ flat_map shown_path paths.now) }
{
    for path in paths {
        push_path(shown, path)?;
    }
    Ok(())
}

fn push_step(shown: &mut Vec<bool>, step: &StepTree) -> Result<(), AllocError>
    ensures { OnOk result (shown.new.items ≡ shown.old.items ++ shown_step step.now) }
{
    shown.push(true)?;
    push_each(shown, step.reads.as_slice())?;
    push_path(shown, &step.first)?;
    push_paths(shown, step.others.as_slice())
}

/// A variant, which is printed where it isn't 0.
fn push_variant(shown: &mut Vec<bool>, tree: &Option<Sum>, variant: &Lin) -> Result<(), AllocError>
    ensures { OnOk result (shown.new.items ≡ shown.old.items ++ shown_variant tree.now variant.now) }
{
    if tree.is_some() {
        let is_zero = variant.coeffs.as_slice().is_empty() && variant.constant == 0;
        shown.push(!is_zero)?;
    }
    Ok(())
}

fn push_point(shown: &mut Vec<bool>, tree: &PointTree, point: &Point) -> Result<(), AllocError>
    ensures { OnOk result (shown.new.items ≡ shown.old.items ++ shown_point tree.now point.now) }
{
    shown.push(true)?;
    push_variant(shown, &tree.variant, &point.variant)?;
    push_each(shown, tree.holds.as_slice())?;
    push_step(shown, tree.next.get())?;
    push_step(shown, tree.undo.get())
}

fn push_points(
    shown: &mut Vec<bool>,
    trees: &[PointTree],
    points: &[Point],
) -> Result<(), AllocError>
    ensures { OnOk result (shown.new.items ≡ shown.old.items ++ beside shown_point trees.now points.now) }
{
    let mut trees_left = trees;
    let mut points_left = points;
    while let Some((tree, other_trees)) = trees_left.split_first() {
        let Some((point, other_points)) = points_left.split_first() else {
            return Ok(());
        };
        push_point(shown, tree, point)?;
        trees_left = other_trees;
        points_left = other_points;
    }
    Ok(())
}

/// The points of a type, the first of which stands by itself in the tree.
fn push_all_points(
    shown: &mut Vec<bool>,
    tree: &TypeTree,
    points: &[Point],
) -> Result<(), AllocError>
    ensures { OnOk result
        (shown.new.items ≡ shown.old.items ++ beside shown_point (tree.now.first ∷ tree.now.others) points.now) }
{
    if let [first, others @ ..] = points {
        push_point(shown, &tree.first, first)?;
        push_points(shown, tree.others.as_slice(), others)?;
    }
    Ok(())
}

fn push_type(shown: &mut Vec<bool>, tree: &TypeTree, ty: &TxType) -> Result<(), AllocError>
    ensures { OnOk result (shown.new.items ≡ shown.old.items ++ shown_type tree.now ty.now) }
{
    shown.push(true)?;
    shown.push(true)?;
    push_if(shown, &tree.returns)?;
    push_if(shown, &tree.locals)?;
    push_each(shown, tree.ensured.as_slice())?;
    push_each(shown, tree.repaired.as_slice())?;
    push_all_points(shown, tree, ty.points.as_slice())
}

fn push_types(shown: &mut Vec<bool>, trees: &[TypeTree], types: &[TxType]) -> Result<(), AllocError>
    ensures { OnOk result (shown.new.items ≡ shown.old.items ++ beside shown_type trees.now types.now) }
{
    let mut trees_left = trees;
    let mut types_left = types;
    while let Some((tree, other_trees)) = trees_left.split_first() {
        let Some((ty, other_types)) = types_left.split_first() else {
            return Ok(());
        };
        push_type(shown, tree, ty)?;
        trees_left = other_trees;
        types_left = other_types;
    }
    Ok(())
}

/// Whether each statement of a tree is printed, where the tree stands for the design.
#[tactic(auto, unfolding(crate::specs::Shown::shown))]
pub fn shown_statements(
    alloc: Global,
    tree: &DesignTree,
    design: &Design,
) -> Result<Vec<bool>, AllocError>
    ensures { IfOk result (λ bs. bs.items ≡ shown tree.now design.now) }
{
    let mut shown = Vec::new(alloc);
    push_each(&mut shown, tree.tables.as_slice())?;
    push_each(&mut shown, tree.always.as_slice())?;
    push_types(&mut shown, tree.types.as_slice(), design.types.as_slice())?;
    push_each(&mut shown, tree.entries.as_slice())?;
    push_each(&mut shown, tree.hints.as_slice())?;
    Ok(shown)
}
