//! The values of a system's unknowns, given backwards.
ghost use Rattle.std.specs.Prelude.{◌≡◌, reverse, slice_set};
ghost use Rattle.acc_base.specs.Computing.{Answers, Leaves, steps};
ghost use Rattle.acc_rows.specs.Answers.{tells};
ghost use Rattle.acc_elim_points.specs.Points.{value, summed, root, tighter, tightest, bounded_value, placed, placed_by};

use crate::fractions::{is_less, plus_times, solved};
use acc_base::sequences::Seq;
use acc_rows::rows::Row;
use acc_rows::stops::Stop;

/// The value of an unknown.
fn value(point: &[(i128, i128)], unknown: u32) -> (i128, i128)
    ensures { result ≡ value point.now unknown }
{
    match point.get(unknown as usize) {
        Some(x) => *x,
        None => (0, 1),
    }
}

/// A term of a relation at a point, besides that of an unknown.
fn summed(
    unknown: u32,
    point: &[(i128, i128)],
    so_far: (i128, i128),
    term: (u32, i128),
) -> Result<(i128, i128), Stop>
    ensures { Answers tells result (summed unknown point.now so_far term) }
{
    if term.0 == unknown {
        return Ok(so_far);
    }
    plus_times(so_far, term.1, value(point, term.0))
}

/// A sum and the terms of a relation at a point, besides that of an unknown.
fn summed_all(
    unknown: u32,
    point: &[(i128, i128)],
    first: (i128, i128),
    terms: &[(u32, i128)],
) -> Result<(i128, i128), Stop>
    ensures { Answers tells result (steps (summed unknown point.now) first terms.now) }
{
    let mut sum = first;
    for term in terms {
        sum = summed(unknown, point, sum, *term)?;
    }
    Ok(sum)
}

/// The value of the unknown at which the relation's form is 0. The cost is that of going over its terms.
fn root(unknown: u32, point: &[(i128, i128)], row: &Row) -> Result<(i128, i128), Stop>
    ensures { Answers tells result (root unknown point.now row.now) }
{
    let sum = summed_all(unknown, point, (row.constant, 1), row.terms.as_slice())?;
    solved(sum, row.coefficient(unknown))
}

/// The greater of two lower bounds, or the lesser of two upper ones.
fn tighter(lower: bool, x: (i128, i128), y: (i128, i128)) -> Result<(i128, i128), Stop>
    ensures { Answers tells result (tighter lower x y) }
{
    let is_tighter = if lower {
        is_less(x, y)?
    } else {
        is_less(y, x)?
    };
    Ok(if is_tighter { y } else { x })
}

/// The tighter of a bound and that of a relation.
fn tightest(
    unknown: u32,
    point: &[(i128, i128)],
    so_far: (i128, i128),
    row: &Row,
) -> Result<(i128, i128), Stop>
    ensures { Answers tells result (tightest unknown point.now so_far row.now) }
{
    let bound = root(unknown, point, row)?;
    let lower = row.coefficient(unknown) < 0;
    tighter(lower, so_far, bound)
}

/// The tightest of a bound and those of relations.
fn tightest_of(
    unknown: u32,
    point: &[(i128, i128)],
    first: (i128, i128),
    rows: &[Row],
) -> Result<(i128, i128), Stop>
    ensures { Answers tells result (steps (tightest unknown point.now) first rows.now) }
{
    let mut bound = first;
    for row in rows {
        bound = tightest(unknown, point, bound, row)?;
    }
    Ok(bound)
}

/// The value of an unknown by its bounds, and 0 where it has none.
fn bounded_value(unknown: u32, point: &[(i128, i128)], rows: &[Row]) -> Result<(i128, i128), Stop>
    ensures { Answers tells result (bounded_value unknown point.now rows.now) }
{
    match rows {
        [] => Ok((0, 1)),
        [row, rest @ ..] => {
            let first = root(unknown, point, row)?;
            tightest_of(unknown, point, first, rest)
        }
    }
}

/// The point with another value for an unknown.
fn set(point: &mut Vec<(i128, i128)>, unknown: u32, x: (i128, i128))
    ensures { point.new.items ≡ slice_set point.old.items unknown x }
{
    if let Some(at) = point.get_mut(unknown as usize) {
        *at = x;
    }
}

/// A value for the unknown, by its bounds.
fn place(point: &mut Vec<(i128, i128)>, bound: &(u32, Seq<Row>)) -> Result<(), Stop>
    ensures { Leaves tells result point.new.items (placed point.old.items bound.now) }
{
    let x = bounded_value(bound.0, point.as_slice(), bound.1.as_slice())?;
    set(point, bound.0, x);
    Ok(())
}

/// A value for the unknown, by the equation that was set aside for it.
pub fn place_by(point: &mut Vec<(i128, i128)>, equation: &(u32, Row)) -> Result<(), Stop>
    ensures { Leaves tells result point.new.items (placed_by point.old.items equation.now) }
{
    let x = root(equation.0, point.as_slice(), &equation.1)?;
    set(point, equation.0, x);
    Ok(())
}

/// Values for the unknowns by their bounds, the last first.
pub fn place_all(
    mut point: Vec<(i128, i128)>,
    bounds: &[(u32, Seq<Row>)],
) -> Result<Seq<(i128, i128)>, Stop>
    ensures { Answers tells result (steps placed point.items (reverse bounds.now)) }
{
    let mut left = bounds.len();
    while left > 0 {
        left -= 1;
        place(&mut point, &bounds[left])?;
    }
    Ok(Seq::from_vec(point))
}

/// Values for the unknowns by the equations, the last first.
pub fn place_all_by(
    mut point: Vec<(i128, i128)>,
    aside: &[(u32, Row)],
) -> Result<Seq<(i128, i128)>, Stop>
    ensures { Answers tells result (steps placed_by point.items (reverse aside.now)) }
{
    let mut left = aside.len();
    while left > 0 {
        left -= 1;
        place_by(&mut point, &aside[left])?;
    }
    Ok(Seq::from_vec(point))
}
