//! What is left of one more relation in a stage of equations that is kept.
ghost use Rattle.std.specs.Prelude.{◌≡◌, ◌∷◌, ◌++◌, false, reverse, Some, IfOk, IfSome, OnOk};
ghost use Rattle.std.specs.List.{list_any};
ghost use Rattle.acc_base.specs.Computing.{Answers};
ghost use Rattle.acc_rows.specs.Answers.{tells};
ghost use Rattle.acc_elim_systems.specs.Systems.{repeats};
ghost use Rattle.acc_elim_stages.specs.Followed.{left_of, left_first, listed, told, followed_at, followed_all, through};

use crate::stages::{Path, Step};
use acc_base::sequences::Seq;
use acc_elim_systems::systems::{MOST_RELATIONS, is_constant, is_false, is_repetition};
use acc_rows::rows::{Row, cleared};
use acc_rows::stops::Stop;
use std::alloc::{AllocError, Global};

/// What is left of one more relation of a system of `count`, where it is known whether it repeats one.
fn left_of(row: Row, is_repeated: bool, count: usize) -> Result<Option<Row>, Stop>
    ensures { Answers tells result (left_of is_repeated count row) }
{
    if is_constant(&row) {
        if is_false(&row) {
            return Err(Stop::Refuted(row));
        }
        return Ok(None);
    }
    if is_repeated {
        return Ok(None);
    }
    if count >= MOST_RELATIONS {
        return Err(Stop::Many);
    }
    Ok(Some(row))
}

/// Whether a relation repeats one of the system behind steps. The cost is at most that of comparing it with each that ever stood there.
fn is_told(first: &[Row], steps: &[Step], row: &Row) -> bool
    ensures { result ≡ told first.now (reverse steps.now) row.now }
{
    let mut left = steps.len();
    while left > 0 {
        left -= 1;
        if is_repetition(steps[left].made.as_slice(), row) {
            return true;
        }
        if row.has(steps[left].aside.0) {
            return false;
        }
    }
    is_repetition(first, row)
}

/// The same behind one step more.
fn is_told_at(first: &[Row], earlier: &[Step], step: &Step, row: &Row) -> bool
    ensures { result ≡ told first.now (step.now ∷ reverse earlier.now) row.now }
{
    if is_repetition(step.made.as_slice(), row) {
        return true;
    }
    if row.has(step.aside.0) {
        return false;
    }
    is_told(first, earlier, row)
}

/// What is left of a relation behind a step. Where it lacks the unknown, it can only repeat one of those that were made there.
fn follow_row(
    alloc: Global,
    first: &[Row],
    earlier: &[Step],
    step: &Step,
    row: Row,
) -> Result<Option<Row>, Stop>
    requires { told first.now (reverse earlier.now) row ≡ false }
    ensures { Answers tells result (followed_at first.now (reverse earlier.now) step.now (Some row)) }
{
    if !row.has(step.aside.0) {
        let is_repeated = is_repetition(step.made.as_slice(), &row);
        return left_of(row, is_repeated, step.count);
    }
    let row = cleared(alloc, step.aside.0, &step.aside.1, row)?;
    let is_repeated = is_told_at(first, earlier, step, &row);
    left_of(row, is_repeated, step.count)
}

/// What is left behind a step.
pub fn follow_step(
    alloc: Global,
    first: &[Row],
    earlier: &[Step],
    step: &Step,
    rest: Option<Row>,
) -> Result<Option<Row>, Stop>
    requires { IfSome rest (λ row. told first.now (reverse earlier.now) row ≡ false) }
    ensures value { Answers tells result (followed_at first.now (reverse earlier.now) step.now rest) }
    ensures untold { IfOk result (λ left. IfSome left (λ row. told first.now (step.now ∷ reverse earlier.now) row ≡ false)) }
{
    match rest {
        None => Ok(None),
        Some(row) => follow_row(alloc, first, earlier, step, row),
    }
}

/// What is left of one more relation of the first system.
pub fn left_first(first: &[Row], row: Row) -> Result<Option<Row>, Stop>
    ensures value { Answers tells result (left_first first.now row) }
    ensures untold { IfOk result (λ rest. IfSome rest (λ r. list_any (repeats r) first.now ≡ false)) }
{
    let is_repeated = is_repetition(first, &row);
    left_of(row, is_repeated, first.len())
}

/// What is left behind all steps.
fn follow_all(alloc: Global, path: &Path, rest: Option<Row>) -> Result<Option<Row>, Stop>
    requires { IfSome rest (λ row. list_any (repeats row) path.now.first ≡ false) }
    ensures { Answers tells result (followed_all path.now rest) }
{
    let first = path.first.as_slice();
    let steps = path.steps.as_slice();
    let mut left = rest;
    for place in 0..steps.len() {
        left = follow_step(alloc, first, &steps[..place], &steps[place], left)?;
    }
    Ok(left)
}

/// What is left of one more relation behind the path, or what stops it. An equation isn't led through rightly: it may be set aside.
pub fn follow(alloc: Global, path: &Path, row: Row) -> Result<Option<Row>, Stop>
    ensures { Answers tells result (through path.now row) }
{
    let rest = left_first(path.first.as_slice(), row)?;
    follow_all(alloc, path, rest)
}

/// Puts one more relation behind the others, where there is one.
pub fn add_left(rows: &mut Seq<Row>, more: Option<Row>) -> Result<(), AllocError>
    ensures { OnOk result (rows.new ≡ rows.old ++ listed more) }
{
    match more {
        None => Ok(()),
        Some(row) => rows.push(row),
    }
}
