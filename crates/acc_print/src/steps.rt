//! The statements of a step. Each call writes to `out`.
ghost use Rattle.std.specs.Prelude.{◌≡◌, ◌++◌, slice_get};
ghost use Rattle.acc_page.specs.Written.{Adds};
ghost use Rattle.std.specs.List.{flat_map};
ghost use Rattle.acc_base.specs.Lines.{point_name};
ghost use Rattle.acc_print.specs.Lists.{spaced};
ghost use Rattle.acc_print.specs.Names.{name_at};
ghost use Rattle.acc_print.specs.Values.{lin_text, row_text, cell_text};
ghost use Rattle.acc_print.specs.Steps.{assigned, read_text, read_line, action_text, action_line, target_text, path_lines, step_lines};

use crate::scopes::Scope;
use crate::values::{push_cell, push_guard, push_lin, push_lins, push_row};
use acc_base::designs::Point;
use acc_base::forms::Lin;
use acc_base::steps::{Action, Path, Read, Step, Target};
use acc_page::Page;
use itoa::Buffer;

/// The word of a read, and the local that it assigns.
fn push_assigned(out: &mut Page, scope: &Scope, word: &[u8], local: u32)
    ensures { Adds out.old out.new (assigned scope.now word.now local) }
{
    out.push(word);
    out.push(scope.variable(local));
    out.push(b" = ")
}

/// A read of rows.
fn push_row_read(out: &mut Page, scope: &Scope, word: &[u8], local: u32, table: u32, key: &[Lin])
    ensures { Adds out.old out.new (assigned scope.now word.now local ++ row_text scope.now table key.now) }
{
    push_assigned(out, scope, word, local);
    push_row(out, scope, table, key)
}

/// A read of a column.
fn push_cell_read(
    out: &mut Page,
    scope: &Scope,
    word: &[u8],
    local: u32,
    table: u32,
    key: &[Lin],
    column: u32,
)
    ensures { Adds out.old out.new (assigned scope.now word.now local
        ++ cell_text scope.now table key.now column) }
{
    push_assigned(out, scope, word, local);
    push_cell(out, scope, table, key, column)
}

/// A variable, and what stands behind it.
fn push_two(out: &mut Page, scope: &Scope, variable: u32, other: &[u8])
    ensures { Adds out.old out.new (name_at scope.now.names variable ++ spaced other.now) }
{
    out.push(scope.variable(variable));
    out.push(b" ");
    out.push(other)
}

fn push_read(out: &mut Page, scope: &Scope, read: &Read)
    ensures { Adds out.old out.new (read_text scope.now read.now) }
{
    match read {
        Read::Let(x, lin) => {
            push_assigned(out, scope, b"let ", *x);
            push_lin(out, scope, lin)
        }
        Read::Col(x, table, key, column) => {
            push_cell_read(out, scope, b"get ", *x, *table, key.as_slice(), *column)
        }
        Read::Has(x, table, key) => push_row_read(out, scope, b"has ", *x, *table, key.as_slice()),
        Read::Count(x, table, key) => {
            push_row_read(out, scope, b"count ", *x, *table, key.as_slice())
        }
        Read::Sum(x, table, key, column) => {
            push_cell_read(out, scope, b"sum ", *x, *table, key.as_slice(), *column)
        }
        Read::Least(x, table, key) => {
            push_row_read(out, scope, b"least ", *x, *table, key.as_slice())
        }
        Read::Greatest(x, table, key) => {
            push_row_read(out, scope, b"greatest ", *x, *table, key.as_slice())
        }
        Read::Take(x) => {
            out.push(b"take ");
            out.push(scope.variable(*x))
        }
        Read::Mul(x, a, b) => {
            push_assigned(out, scope, b"mul ", *x);
            push_two(out, scope, *a, scope.variable(*b))
        }
        Read::Div(x, a, divisor) => {
            push_assigned(out, scope, b"div ", *x);
            push_two(out, scope, *a, Buffer::new().format(*divisor).as_bytes())
        }
    }
}

fn push_reads(out: &mut Page, scope: &Scope, reads: &[Read])
    ensures { Adds out.old out.new (flat_map (read_line scope.now) reads.now) }
{
    for read in reads {
        push_read(out, scope, read);
        out.push(b"\n");
    }
}

/// The word of an action that changes a column, the column, and the value.
fn push_change(out: &mut Page, scope: &Scope, table: u32, key: &[Lin], column: u32, lin: &Lin)
    ensures { Adds out.old out.new (cell_text scope.now table key.now column
        ++ spaced (lin_text scope.now.names lin.now)) }
{
    push_cell(out, scope, table, key, column);
    out.push(b" ");
    push_lin(out, scope, lin)
}

fn push_action(out: &mut Page, scope: &Scope, action: &Action)
    ensures { Adds out.old out.new (action_text scope.now action.now) }
{
    match action {
        Action::Put(table, key, values) => {
            out.push(b"put ");
            push_row(out, scope, *table, key.as_slice());
            push_lins(out, scope, b" ", values.as_slice())
        }
        Action::Del(table, key) => {
            out.push(b"del ");
            push_row(out, scope, *table, key.as_slice())
        }
        Action::Set(table, key, column, lin) => {
            out.push(b"set ");
            push_change(out, scope, *table, key.as_slice(), *column, lin)
        }
        Action::Add(table, key, column, lin) => {
            out.push(b"add ");
            push_change(out, scope, *table, key.as_slice(), *column, lin)
        }
    }
}

fn push_actions(out: &mut Page, scope: &Scope, actions: &[Action])
    ensures { Adds out.old out.new (flat_map (action_line scope.now) actions.now) }
{
    for action in actions {
        push_action(out, scope, action);
        out.push(b"\n");
    }
}

/// The name of a point, and none where it isn't there.
fn point_name(points: &[Point], number: u32) -> &[u8]
    ensures { result.now ≡ point_name (slice_get points.now number) }
{
    match points.get(number as usize) {
        Some(point) => point.name.as_slice(),
        None => b"",
    }
}

fn push_target(out: &mut Page, points: &[Point], target: Target)
    ensures { Adds out.old out.new (target_text points.now target) }
{
    match target {
        Target::Point(number) => {
            out.push(b"goto ");
            out.push(point_name(points, number))
        }
        Target::Commit => out.push(b"commit"),
        Target::Undone => out.push(b"undone"),
        Target::Refuse(number) => {
            out.push(b"refuse ");
            out.push_number(number)
        }
    }
}

fn push_path(out: &mut Page, scope: &Scope, points: &[Point], path: &Path)
    ensures { Adds out.old out.new (path_lines scope.now points.now path.now) }
{
    out.push(b"path");
    push_guard(out, scope, path.guard.as_slice());
    out.push(b"\n");
    push_actions(out, scope, path.actions.as_slice());
    push_target(out, points, path.target);
    out.push(b"\n")
}

fn push_paths(out: &mut Page, scope: &Scope, points: &[Point], paths: &[Path])
    ensures { Adds out.old out.new (flat_map (path_lines scope.now points.now) paths.now) }
{
    for path in paths {
        push_path(out, scope, points, path);
    }
}

/// A step, where it is known which points its type has.
pub fn push_step(out: &mut Page, scope: &Scope, points: &[Point], step: &Step)
    ensures { Adds out.old out.new (step_lines scope.now points.now step.now) }
{
    push_reads(out, scope, step.reads.as_slice());
    push_paths(out, scope, points, step.paths.as_slice())
}
