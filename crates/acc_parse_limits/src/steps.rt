//! The statements of a step: its reads, and its paths with what they write and where they end.
ghost use Rattle.std.specs.Prelude.{◌≡◌, ◌-◌};
ghost use Rattle.acc_parse_limits.specs.Marks.{limited};
ghost use Rattle.acc_parse_limits.specs.Statements.{read_words_marks, read_marks, values_marks, action_words_marks, action_marks};
ghost use Rattle.acc_parse_limits.specs.Statements.{target_words_marks, target_marks, path_marks, step_marks};
ghost use Rattle.acc_parse_limits.specs.Walks.{after};

use crate::values::{
    meet_cell, meet_guard, meet_name, meet_number, meet_place, meet_small_number, meet_sum,
    meet_sums, meet_variable,
};
use crate::walks::Walk;
use acc_base::bounds::{MOST_ACTIONS, MOST_PATHS, MOST_READS};
use acc_base::limits::Limit;
use acc_parse_syntax::boxes::Boxed;
use acc_parse_syntax::trees::{ActionTree, PathTree, ReadTree, StepTree, Sums, TargetTree};

fn meet_read_words(walk: &mut Walk, read: &ReadTree)
    ensures { walk.new ≡ after walk.old (read_words_marks read.now) }
{
    match read {
        ReadTree::Let(variable, sum) => {
            meet_variable(walk, variable);
            meet_sum(walk, sum);
        }
        ReadTree::Get(variable, cell) | ReadTree::Sum(variable, cell) => {
            meet_variable(walk, variable);
            meet_cell(walk, cell);
        }
        ReadTree::Has(variable, place)
        | ReadTree::Count(variable, place)
        | ReadTree::Least(variable, place)
        | ReadTree::Greatest(variable, place) => {
            meet_variable(walk, variable);
            meet_place(walk, place);
        }
        ReadTree::Take(variable) => meet_variable(walk, variable),
        ReadTree::Mul(variable, left, right) => {
            meet_variable(walk, variable);
            meet_variable(walk, left);
            meet_variable(walk, right);
        }
        ReadTree::Div(variable, dividend, divisor) => {
            meet_variable(walk, variable);
            meet_variable(walk, dividend);
            meet_number(walk, *divisor);
        }
    }
}

fn meet_read(walk: &mut Walk, read: &ReadTree)
    ensures { walk.new ≡ after walk.old (read_marks read.now) }
{
    meet_read_words(walk, read);
    walk.end();
}

/// At most 32 reads.
fn meet_reads(walk: &mut Walk, reads: &[ReadTree])
    ensures { walk.new ≡ after walk.old (limited Limit.Reads MOST_READS read_marks reads.now) }
{
    for (i, read) in reads.iter().enumerate() {
        walk.pass_if(Limit::Reads, i == MOST_READS);
        meet_read(walk, read);
    }
}

fn meet_values(walk: &mut Walk, values: &Option<Boxed<Sums>>)
    ensures { walk.new ≡ after walk.old (values_marks values.now) }
{
    if let Some(sums) = values {
        meet_sums(walk, sums.get());
    }
}

fn meet_action_words(walk: &mut Walk, action: &ActionTree)
    ensures { walk.new ≡ after walk.old (action_words_marks action.now) }
{
    match action {
        ActionTree::Put(place, values) => {
            meet_place(walk, place);
            meet_values(walk, values);
        }
        ActionTree::Del(place) => meet_place(walk, place),
        ActionTree::Set(cell, sum) | ActionTree::Add(cell, sum) => {
            meet_cell(walk, cell);
            meet_sum(walk, sum);
        }
    }
}

fn meet_action(walk: &mut Walk, action: &ActionTree)
    ensures { walk.new ≡ after walk.old (action_marks action.now) }
{
    meet_action_words(walk, action);
    walk.end();
}

/// At most 16 actions.
fn meet_actions(walk: &mut Walk, actions: &[ActionTree])
    ensures { walk.new ≡ after walk.old (limited Limit.Actions MOST_ACTIONS action_marks actions.now) }
{
    for (i, action) in actions.iter().enumerate() {
        walk.pass_if(Limit::Actions, i == MOST_ACTIONS);
        meet_action(walk, action);
    }
}

fn meet_target(walk: &mut Walk, target: &TargetTree)
    ensures { walk.new ≡ after walk.old (target_marks target.now) }
{
    match target {
        TargetTree::Goto(name) => meet_name(walk, name),
        TargetTree::Commit | TargetTree::Undone => {}
        TargetTree::Refuse(n) => meet_small_number(walk, *n),
    }
    walk.end();
}

fn meet_path(walk: &mut Walk, path: &PathTree)
    ensures { walk.new ≡ after walk.old (path_marks path.now) }
{
    meet_guard(walk, &path.guard);
    walk.end();
    meet_actions(walk, path.actions.as_slice());
    meet_target(walk, &path.target);
}

/// The paths behind the first: at most 15.
fn meet_other_paths(walk: &mut Walk, paths: &[PathTree])
    ensures { walk.new ≡ after walk.old (limited Limit.Paths (MOST_PATHS - 1) path_marks paths.now) }
{
    for (i, path) in paths.iter().enumerate() {
        walk.pass_if(Limit::Paths, i == MOST_PATHS - 1);
        meet_path(walk, path);
    }
}

/// The word `next` or `undo`, and its step.
pub fn meet_step(walk: &mut Walk, step: &StepTree)
    ensures { walk.new ≡ after walk.old (step_marks step.now) }
{
    walk.end();
    meet_reads(walk, step.reads.as_slice());
    meet_path(walk, &step.first);
    meet_other_paths(walk, step.others.as_slice());
}
