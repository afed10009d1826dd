//! The statements of a step: its reads, and its paths with what they write and where they end.
ghost use Rattle.std.specs.Prelude.{◌≡◌, ◌<◌, length};
ghost use Rattle.acc_form.specs.Marks.{numbered};
ghost use Rattle.acc_form.specs.Statements.{read_marks, action_marks, target_marks, path_marks, step_marks};
ghost use Rattle.acc_form.specs.Walks.{after};

use crate::ends::{
    assigns_local, divides, is_undone, may_end, may_read, refuses_by_number, refuses_plainly,
};
use crate::sizes::{action_small, guard_small, read_small, target_small};
use crate::walks::Walk;
use crate::widths::{action_fits, action_is_own, read_fits, read_leaves_a_component};
use acc_base::bounds::{MOST_ACTIONS, MOST_PATHS, MOST_READS};
use acc_base::designs::{Side, TxType};
use acc_base::rules::FormRule;
use acc_base::steps::{Action, Path, Read, Step};
use acc_base::tables::Table;

/// What stands around the statements of a step.
#[derive(Drop)]
pub struct Around<'a> {
    /// The tables of the design.
    pub tables: &'a [Table],
    /// The type of the step.
    pub ty: &'a TxType,
    /// The side of the step.
    pub side: Side,
    /// Whether the step has to do nothing, as the undo of a start point.
    pub is_bare: bool,
}

fn meet_read(walk: &mut Walk, around: &Around<'_>, i: usize, read: &Read)
    ensures { walk.new ≡ after walk.old (read_marks around.now.tables.now around.now.ty.now around.now.side i read.now) }
{
    walk.ask(FormRule::Widths, read_fits(around.tables, read));
    walk.ask(
        FormRule::ShortPrefixes,
        read_leaves_a_component(around.tables, read),
    );
    walk.ask(FormRule::Limits, i != MOST_READS && read_small(read));
    walk.ask(FormRule::Numbers, divides(read));
    walk.ask(FormRule::Assigned, assigns_local(around.ty, read));
    walk.ask(FormRule::UndoReads, may_read(around.side, read));
    walk.end();
}

/// At most 32 reads.
fn meet_reads(walk: &mut Walk, around: &Around<'_>, reads: &[Read])
    ensures { walk.new ≡ after walk.old (numbered (read_marks around.now.tables.now around.now.ty.now around.now.side) reads.now) }
{
    for (i, read) in reads.iter().enumerate() {
        meet_read(walk, around, i, read);
    }
}

fn meet_action(walk: &mut Walk, around: &Around<'_>, i: usize, action: &Action)
    ensures { walk.new ≡ after walk.old (action_marks around.now.tables.now around.now.ty.now around.now.is_bare i action.now) }
{
    walk.ask(FormRule::Widths, action_fits(around.tables, action));
    walk.ask(FormRule::Limits, i != MOST_ACTIONS && action_small(action));
    walk.ask(
        FormRule::PrivateKeys,
        action_is_own(around.tables, around.ty.locals.len(), action),
    );
    walk.ask(FormRule::StartUndos, !around.is_bare);
    walk.end();
}

/// At most 16 actions, and none where the step is bare.
fn meet_actions(walk: &mut Walk, around: &Around<'_>, actions: &[Action])
    ensures { walk.new ≡ after walk.old (numbered (action_marks around.now.tables.now around.now.ty.now around.now.is_bare) actions.now) }
{
    for (i, action) in actions.iter().enumerate() {
        meet_action(walk, around, i, action);
    }
}

fn meet_target(walk: &mut Walk, around: &Around<'_>, path: &Path)
    ensures { walk.new ≡ after walk.old (target_marks around.now.ty.now around.now.side around.now.is_bare path.now) }
{
    let target = path.target;
    walk.ask(
        FormRule::Limits,
        target_small(around.ty.points.as_slice(), target),
    );
    walk.ask(FormRule::Numbers, refuses_by_number(target));
    walk.ask(FormRule::Ends, may_end(around.side, target));
    walk.ask(
        FormRule::Refusals,
        refuses_plainly(path.actions.as_slice(), target),
    );
    walk.ask(FormRule::StartUndos, !around.is_bare || is_undone(target));
    walk.end();
}

/// A path, one of so many.
fn meet_path(walk: &mut Walk, around: &Around<'_>, count: usize, i: usize, path: &Path)
    requires { i < count }
    ensures { walk.new ≡ after walk.old
        (path_marks around.now.tables.now around.now.ty.now around.now.side around.now.is_bare count i path.now) }
{
    let guard = path.guard.as_slice();
    walk.ask(FormRule::Limits, i != MOST_PATHS && guard_small(guard));
    walk.ask(FormRule::LastPaths, i + 1 < count || guard.is_empty());
    walk.end();
    meet_actions(walk, around, path.actions.as_slice());
    meet_target(walk, around, path);
}

/// At most 16 paths.
fn meet_paths(walk: &mut Walk, around: &Around<'_>, paths: &[Path])
    ensures { walk.new ≡ after walk.old (numbered (path_marks around.now.tables.now around.now.ty.now around.now.side around.now.is_bare
        (length paths.now)) paths.now) }
{
    for (i, path) in paths.iter().enumerate() {
        meet_path(walk, around, paths.len(), i, path);
    }
}

/// The word `next` or `undo`, and its step.
pub fn meet_step(walk: &mut Walk, around: &Around<'_>, step: &Step)
    ensures { walk.new ≡ after walk.old (step_marks around.now.tables.now around.now.ty.now around.now.side around.now.is_bare step.now) }
{
    walk.end();
    meet_reads(walk, around, step.reads.as_slice());
    meet_paths(walk, around, step.paths.as_slice());
}
