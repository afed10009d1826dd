//! The search for a point at which relations between unknowns hold.
ghost use Rattle.std.specs.Prelude.{◌≡◌, IfOk};
ghost use Rattle.acc_base.specs.Computing.{Answers};
ghost use Rattle.acc_rows.specs.Answers.{tells};
ghost use Rattle.acc_elim_points.specs.Points.{zeros, point_of};
ghost use Rattle.acc_elim_points.specs.Searches.{found_by, searched};

use crate::points::{place_all, place_all_by};
use acc_base::forms::Rel;
use acc_base::sequences::Seq;
use acc_elim_readings::readings::{rows_of, unknowns_of};
use acc_elim_systems::systems::{Eliminated, eliminate_all};
use acc_rows::rows::Row;
use acc_rows::stops::Stop;
use std::alloc::{AllocError, Global};

/// A point at which every unknown is 0.
pub fn zeros(alloc: Global, unknowns: u32) -> Result<Vec<(i128, i128)>, AllocError>
    ensures { IfOk result (λ v. v.items ≡ zeros unknowns) }
{
    Vec::from_elem(alloc, (0, 1), unknowns as usize)
}

/// The point that an elimination leaves.
fn point_of(alloc: Global, unknowns: u32, left: Eliminated) -> Result<Seq<(i128, i128)>, Stop>
    ensures { Answers tells result (point_of unknowns left) }
{
    let zeros = zeros(alloc, unknowns)?;
    let point = place_all(zeros, left.bounds.as_slice())?;
    place_all_by(point.into_vec(), left.aside.as_slice())
}

/// The point that the elimination of this many unknowns from these rows leaves, or what stops it.
pub fn found_by(alloc: Global, unknowns: u32, rows: Vec<Row>) -> Result<Seq<(i128, i128)>, Stop>
    ensures { Answers tells result (found_by unknowns rows.items) }
{
    let left = eliminate_all(alloc, unknowns, rows)?;
    point_of(alloc, unknowns, left)
}

/// The point at which relations hold: a numerator and a denominator above 0 for each unknown, in the order of first appearance. Or
/// what stops the elimination: `Refuted` with the false constant and its multipliers, `Wide` where a number lies beyond 2^120 on
/// either side of 0, `Many` where a system has more than 4,096 relations, whichever it meets first; `Memory` where memory ran out, or
/// where there are 2^32 relations or unknowns, which have no numbers then.
///
/// Each term's unknown is compared with the unknowns that were found before it, and each relation of a system with those before it.
/// The elimination may square the number of bounds with each unknown.
pub fn searched(alloc: Global, rels: &[Rel]) -> Result<Seq<(i128, i128)>, Stop>
    ensures { Answers tells result (searched rels.now) }
{
    let names = unknowns_of(alloc, rels)?;
    if names.len() > u32::MAX as usize || rels.len() > u32::MAX as usize {
        return Err(Stop::Memory);
    }
    let unknowns = names.len() as u32;
    let rows = rows_of(alloc, names.as_slice(), rels)?;
    found_by(alloc, unknowns, rows)
}
