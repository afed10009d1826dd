//! Steps: their reads, and their paths.
ghost use Rattle.std.specs.Prelude.{◌≡◌, ◌∷◌, ◌++◌, [], map, pos, IfOk, OnOk};
ghost use Rattle.std.specs.List.{flat_map};
ghost use Rattle.acc_parse_limits.specs.Walks.{after};
ghost use Rattle.acc_parse_meaning.specs.Steps.{read_of, action_of, target_of, path_of, all_paths, step_of};
ghost use Rattle.acc_parse_meaning.specs.Questions.{row_read, column_read};
ghost use Rattle.acc_parse_clauses.specs.Scopes.{variable_of, table_in, column_in};
ghost use Rattle.acc_parse_clauses.specs.Rows.{key_in};
ghost use Rattle.acc_parse_clauses.specs.Sizes.{place_sizes};
ghost use Rattle.acc_parse_clauses.specs.Values.{kept};
ghost use Rattle.acc_parse_meaning.specs.Sizes.{read_words_sizes, read_sizes, action_words_sizes, action_sizes, path_sizes, step_sizes};
ghost use Rattle.acc_parse_clauses.specs.Views.{scope_in};

use acc_base::bounds::LARGEST_NUMBER;
use acc_base::sequences::Seq;
use acc_base::steps::{Action, Path, Read, Step, Target};
use acc_parse_clauses::rows::key;
use acc_parse_clauses::scopes::{Surroundings, column, fitted, number_of, table, variable};
use acc_parse_clauses::values::{guard, lin, values};
use acc_parse_limits::Walk;
use acc_parse_names::NameIndex;
use acc_parse_syntax::trees::{
    ActionTree, Cell, PathTree, Place, ReadTree, StepTree, TargetTree, Variable,
};
use std::alloc::{AllocError, Global};

/// A divisor: 0 where it isn't within 2^45 of 0.
fn divisor(n: u64) -> i64
    ensures { result ≡ kept (pos n) }
{
    if n <= LARGEST_NUMBER { n as i64 } else { 0 }
}

/// What a read asks of the rows whose keys begin so.
#[derive(Clone, Copy)]
enum RowQuestion {
    Has,
    Count,
    Least,
    Greatest,
}

/// What a read asks of a column.
#[derive(Clone, Copy)]
enum ColumnQuestion {
    Value,
    Sum,
}

fn row_read<'a>(
    alloc: Global,
    walk: &mut Walk,
    scope: &Surroundings<'_, 'a>,
    question: RowQuestion,
    assigned: &'a Variable,
    row: &'a Place,
) -> Result<Read, AllocError>
    ensures value { IfOk result
        (λ r. r ≡ row_read question (variable_of (scope_in scope.now).variables assigned.now) (table_in (scope_in scope.now) row.now)
        (key_in (scope_in scope.now) row.now)) }
    ensures walk { OnOk result (walk.new ≡ after walk.old (place_sizes (scope_in scope.now) row.now)) }
{
    let key = key(alloc, walk, scope, row)?;
    let x = variable(scope.variables, assigned);
    let table = table(scope, row);
    match question {
        RowQuestion::Has => Ok(Read::Has(x, table, key)),
        RowQuestion::Count => Ok(Read::Count(x, table, key)),
        RowQuestion::Least => Ok(Read::Least(x, table, key)),
        RowQuestion::Greatest => Ok(Read::Greatest(x, table, key)),
    }
}

fn column_read<'a>(
    alloc: Global,
    walk: &mut Walk,
    scope: &Surroundings<'_, 'a>,
    question: ColumnQuestion,
    assigned: &'a Variable,
    cell: &'a Cell,
) -> Result<Read, AllocError>
    ensures value { IfOk result
        (λ r. r ≡ column_read question (variable_of (scope_in scope.now).variables assigned.now)
        (table_in (scope_in scope.now) cell.now.place) (key_in (scope_in scope.now) cell.now.place)
        (column_in (scope_in scope.now) cell.now)) }
    ensures walk { OnOk result (walk.new ≡ after walk.old (place_sizes (scope_in scope.now) cell.now.place)) }
{
    let key = key(alloc, walk, scope, &cell.place)?;
    let x = variable(scope.variables, assigned);
    let table = table(scope, &cell.place);
    let column = column(scope, cell);
    match question {
        ColumnQuestion::Value => Ok(Read::Col(x, table, key, column)),
        ColumnQuestion::Sum => Ok(Read::Sum(x, table, key, column)),
    }
}

/// The read that is written.
fn read_words<'a>(
    alloc: Global,
    walk: &mut Walk,
    scope: &Surroundings<'_, 'a>,
    tree: &'a ReadTree,
) -> Result<Read, AllocError>
    ensures value { IfOk result (λ r. r ≡ read_of (scope_in scope.now) tree.now) }
    ensures walk { OnOk result (walk.new ≡ after walk.old (read_words_sizes (scope_in scope.now) tree.now)) }
{
    let variables = scope.variables;
    match tree {
        ReadTree::Let(x, value) => Ok(Read::Let(
            variable(variables, x),
            lin(alloc, walk, variables, value)?,
        )),
        ReadTree::Get(x, cell) => column_read(alloc, walk, scope, ColumnQuestion::Value, x, cell),
        ReadTree::Has(x, row) => row_read(alloc, walk, scope, RowQuestion::Has, x, row),
        ReadTree::Count(x, row) => row_read(alloc, walk, scope, RowQuestion::Count, x, row),
        ReadTree::Sum(x, cell) => column_read(alloc, walk, scope, ColumnQuestion::Sum, x, cell),
        ReadTree::Least(x, row) => row_read(alloc, walk, scope, RowQuestion::Least, x, row),
        ReadTree::Greatest(x, row) => row_read(alloc, walk, scope, RowQuestion::Greatest, x, row),
        ReadTree::Take(x) => Ok(Read::Take(variable(variables, x))),
        ReadTree::Mul(x, a, b) => Ok(Read::Mul(
            variable(variables, x),
            variable(variables, a),
            variable(variables, b),
        )),
        ReadTree::Div(x, a, n) => Ok(Read::Div(
            variable(variables, x),
            variable(variables, a),
            divisor(*n),
        )),
    }
}

/// The reads of a step, each a statement.
fn reads<'a>(
    alloc: Global,
    walk: &mut Walk,
    scope: &Surroundings<'_, 'a>,
    trees: &'a [ReadTree],
) -> Result<Seq<Read>, AllocError>
    ensures value { IfOk result (λ rs. rs ≡ map (read_of (scope_in scope.now)) trees.now) }
    ensures walk { OnOk result (walk.new ≡ after walk.old (flat_map (read_sizes (scope_in scope.now)) trees.now)) }
{
    let mut reads = Seq::new(alloc);
    for tree in trees {
        reads.push(read_words(alloc, walk, scope, tree)?)?;
        walk.end();
    }
    Ok(reads)
}

/// The action that is written.
fn action_words<'a>(
    alloc: Global,
    walk: &mut Walk,
    scope: &Surroundings<'_, 'a>,
    tree: &'a ActionTree,
) -> Result<Action, AllocError>
    ensures value { IfOk result (λ a. a ≡ action_of (scope_in scope.now) tree.now) }
    ensures walk { OnOk result (walk.new ≡ after walk.old (action_words_sizes (scope_in scope.now) tree.now)) }
{
    let variables = scope.variables;
    Ok(match tree {
        ActionTree::Put(row, columns) => {
            let key = key(alloc, walk, scope, row)?;
            Action::Put(
                table(scope, row),
                key,
                values(alloc, walk, variables, columns)?,
            )
        }
        ActionTree::Del(row) => Action::Del(table(scope, row), key(alloc, walk, scope, row)?),
        ActionTree::Set(cell, value) => {
            let key = key(alloc, walk, scope, &cell.place)?;
            let value = lin(alloc, walk, variables, value)?;
            Action::Set(table(scope, &cell.place), key, column(scope, cell), value)
        }
        ActionTree::Add(cell, value) => {
            let key = key(alloc, walk, scope, &cell.place)?;
            let value = lin(alloc, walk, variables, value)?;
            Action::Add(table(scope, &cell.place), key, column(scope, cell), value)
        }
    })
}

/// The actions of a path, each a statement.
fn actions<'a>(
    alloc: Global,
    walk: &mut Walk,
    scope: &Surroundings<'_, 'a>,
    trees: &'a [ActionTree],
) -> Result<Seq<Action>, AllocError>
    ensures value { IfOk result (λ xs. xs ≡ map (action_of (scope_in scope.now)) trees.now) }
    ensures walk { OnOk result (walk.new ≡ after walk.old (flat_map (action_sizes (scope_in scope.now)) trees.now)) }
{
    let mut actions = Seq::new(alloc);
    for tree in trees {
        actions.push(action_words(alloc, walk, scope, tree)?)?;
        walk.end();
    }
    Ok(actions)
}

/// Where a path leads.
fn target<'a>(points: &NameIndex<'a>, tree: &'a TargetTree) -> Target
    ensures { result ≡ target_of points.now tree.now }
{
    match tree {
        TargetTree::Goto(name) => Target::Point(number_of(points, name)),
        TargetTree::Commit => Target::Commit,
        TargetTree::Undone => Target::Undone,
        TargetTree::Refuse(n) => Target::Refuse(fitted(*n)),
    }
}

/// The path that is written.
fn path<'a>(
    alloc: Global,
    walk: &mut Walk,
    scope: &Surroundings<'_, 'a>,
    points: &NameIndex<'a>,
    tree: &'a PathTree,
) -> Result<Path, AllocError>
    ensures value { IfOk result (λ p. p ≡ path_of (scope_in scope.now) points.now tree.now) }
    ensures walk { OnOk result (walk.new ≡ after walk.old (path_sizes (scope_in scope.now) tree.now)) }
{
    let guard = guard(alloc, walk, scope.variables, &tree.guard)?;
    walk.end();
    let actions = actions(alloc, walk, scope, tree.actions.as_slice())?;
    walk.end();
    Ok(Path {
        guard,
        actions,
        target: target(points, &tree.target),
    })
}

/// The paths of a step.
fn paths<'a>(
    alloc: Global,
    walk: &mut Walk,
    scope: &Surroundings<'_, 'a>,
    points: &NameIndex<'a>,
    tree: &'a StepTree,
) -> Result<Seq<Path>, AllocError>
    ensures value { IfOk result (λ ps. ps ≡ map (path_of (scope_in scope.now) points.now) (all_paths tree.now)) }
    ensures walk { OnOk result (walk.new ≡ after walk.old (flat_map (path_sizes (scope_in scope.now)) (all_paths tree.now))) }
{
    let mut paths = Seq::new(alloc);
    paths.push(path(alloc, walk, scope, points, &tree.first)?)?;
    for other in tree.others.as_slice() {
        paths.push(path(alloc, walk, scope, points, other)?)?;
    }
    Ok(paths)
}

/// The step behind `next` or `undo`.
pub fn step<'a>(
    alloc: Global,
    walk: &mut Walk,
    scope: &Surroundings<'_, 'a>,
    points: &NameIndex<'a>,
    tree: &'a StepTree,
) -> Result<Step, AllocError>
    ensures value { IfOk result (λ st. st ≡ step_of (scope_in scope.now) points.now tree.now) }
    ensures walk { OnOk result (walk.new ≡ after walk.old (step_sizes (scope_in scope.now) tree.now)) }
{
    walk.end();
    let reads = reads(alloc, walk, scope, tree.reads.as_slice())?;
    let paths = paths(alloc, walk, scope, points, tree)?;
    Ok(Step { reads, paths })
}
