//! The rest of an elimination, from a stage of equations that is kept.
ghost use Rattle.std.specs.Prelude.{◌≡◌, ◌-◌, ◌++◌, reverse, IfOk};
ghost use Rattle.acc_base.specs.Computing.{Answers, steps};
ghost use Rattle.acc_rows.specs.Answers.{tells};
ghost use Rattle.acc_base.specs.Items.{numbers_from};
ghost use Rattle.acc_elim_stages.specs.Stages.{aside_of};
ghost use Rattle.acc_elim_known.specs.Ends.{placed_at, found_from, found_behind};

use acc_base::sequences::{Seq, copied};
use acc_elim_points::points::{place_all, place_by};
use acc_elim_points::searching::zeros;
use acc_elim_stages::copies::copied_rows;
use acc_elim_stages::following::add_left;
use acc_elim_stages::stages::{Stage, Step};
use acc_elim_systems::systems::{Bounded, cross_each};
use acc_rows::rows::Row;
use acc_rows::stops::Stop;
use std::alloc::{AllocError, Global};

/// Values for the unknowns by the equations of steps, the last first.
fn place_by_steps(mut point: Vec<(i128, i128)>, walked: &[Step]) -> Result<Seq<(i128, i128)>, Stop>
    ensures { Answers tells result (steps placed_at point.items (reverse walked.now)) }
{
    let mut left = walked.len();
    while left > 0 {
        left -= 1;
        place_by(&mut point, &walked[left].aside)?;
    }
    Ok(Seq::from_vec(point))
}

/// The point of this many unknowns, from the system behind steps and the unknowns that are left on.
fn found_from(
    alloc: Global,
    unknowns: u32,
    rows: Seq<Row>,
    walked: &[Step],
    left: &[u32],
) -> Result<Seq<(i128, i128)>, Stop>
    ensures { Answers tells result (found_from unknowns rows (aside_of walked.now) left.now) }
{
    let Bounded { rows: _, bounds } = cross_each(alloc, left, rows)?;
    let zeros = zeros(alloc, unknowns)?;
    let point = place_all(zeros, bounds.as_slice())?;
    place_by_steps(point.into_vec(), walked)
}

/// The unknowns that are left, and those from `known` on behind them.
pub fn left_with(left: &Seq<u32>, known: u32, unknowns: u32) -> Result<Vec<u32>, AllocError>
    ensures { IfOk result (λ all. all.items ≡ left.now ++ numbers_from known (unknowns - known)) }
{
    let mut all = copied(left)?.into_vec();
    for unknown in known..unknowns {
        all.push(unknown)?;
    }
    Ok(all)
}

/// The point behind a stage of `known` unknowns, with one more relation, where one is left, and this many unknowns.
pub fn found_behind(
    alloc: Global,
    stage: &Stage,
    known: u32,
    rest: Option<Row>,
    unknowns: u32,
) -> Result<Seq<(i128, i128)>, Stop>
    ensures { Answers tells result (found_behind stage.now known rest unknowns) }
{
    let mut rows = Seq::from_vec(copied_rows(alloc, stage.rows.as_slice())?);
    add_left(&mut rows, rest)?;
    let left = left_with(&stage.left, known, unknowns)?;
    found_from(
        alloc,
        unknowns,
        rows,
        stage.path.steps.as_slice(),
        left.as_slice(),
    )
}
