//! Relations of numbered unknowns, each with the multipliers that made it.
ghost use Rattle.std.specs.Prelude.{◌≡◌, ◌<◌, IfOk, Ok};
ghost use Rattle.acc_base.specs.Computing.{Answers};
ghost use Rattle.acc_rows.specs.Answers.{tells};
ghost use Rattle.acc_rows.specs.Sparse.{at};
ghost use Rattle.acc_rows.specs.Rows.{divisor_of, divided, lowest, made, has, cancelling, cleared_by, cleared, crossing};

use crate::divisors::{common, quotient, quotients};
use crate::numbers::{opposite_of, size_of_number};
use crate::sparse::{mixed, mixture_of, number_at};
use crate::stops::Stop;
use acc_base::sequences::Seq;
use std::alloc::{AllocError, Global};

/// That a sum of numbered unknowns and a constant is 0, or is at most 0; and how many times each relation that the
/// elimination began with stands in it. Terms and multipliers are in order of number and place, and none is 0.
#[derive(Drop)]
pub struct Row {
    pub terms: Seq<(u32, i128)>,
    pub constant: i128,
    pub equal: bool,
    pub by: Seq<(u32, i128)>,
}

/// The greatest number that divides all numbers and multipliers of a relation.
fn divisor_of(row: &Row) -> u128
    ensures { result ≡ divisor_of row.now }
{
    let constant = common(0, &[(0, row.constant)]);
    let terms = common(constant, row.terms.as_slice());
    common(terms, row.by.as_slice())
}

/// The relation and its multipliers, divided by what divides them all.
fn divided(alloc: Global, by: u128, row: &Row) -> Result<Row, AllocError>
    requires { 1 < by }
    ensures { IfOk result (λ r. r ≡ divided by row.now) }
{
    Ok(Row {
        terms: quotients(alloc, row.terms.as_slice(), by)?,
        constant: quotient(row.constant, by),
        equal: row.equal,
        by: quotients(alloc, row.by.as_slice(), by)?,
    })
}

/// The relation and its multipliers, divided by the greatest number that divides them all.
fn lowest(alloc: Global, row: Row) -> Result<Row, Stop>
    ensures { Answers tells result (Ok (lowest row)) }
{
    let by = divisor_of(&row);
    if by <= 1 {
        return Ok(row);
    }
    Ok(divided(alloc, by, &row)?)
}

/// `p` times a relation and `q` times another, divided by what divides all its numbers and multipliers.
fn made(alloc: Global, p: i128, row: &Row, q: i128, other: &Row, equal: bool) -> Result<Row, Stop>
    ensures { Answers tells result (made p row.now q other.now equal) }
{
    let terms = mixed(alloc, p, q, row.terms.as_slice(), other.terms.as_slice())?;
    let constant = mixture_of(p, row.constant, q, other.constant)?;
    let by = mixed(alloc, p, q, row.by.as_slice(), other.by.as_slice())?;
    lowest(
        alloc,
        Row {
            terms,
            constant,
            equal,
            by,
        },
    )
}

impl Row {
    /// The unknown's coefficient.
    pub fn coefficient(&self, unknown: u32) -> i128
        ensures { result ≡ at unknown self.now.terms }
    {
        number_at(self.terms.as_slice(), unknown)
    }

    /// Whether the unknown stands in the relation.
    pub fn has(&self, unknown: u32) -> bool
        ensures { result ≡ has unknown self.now }
    {
        self.coefficient(unknown) != 0
    }
}

/// The multiplier of an equation with coefficient `a` that takes an unknown away where it has coefficient `b`, besides |a| times the
/// relation.
fn cancelling(a: i128, b: i128) -> Result<i128, Stop>
    ensures { Answers tells result (cancelling a b) }
{
    if a < 0 { Ok(b) } else { opposite_of(b) }
}

/// The relation, which has the unknown, without it, by an equation that has it.
fn cleared_by(alloc: Global, unknown: u32, equation: &Row, row: &Row) -> Result<Row, Stop>
    ensures { Answers tells result (cleared_by (at unknown equation.now.terms) equation.now (at unknown row.now.terms) row.now) }
{
    let a = equation.coefficient(unknown);
    let b = row.coefficient(unknown);
    let p = size_of_number(a)?;
    let q = cancelling(a, b)?;
    made(alloc, p, row, q, equation, row.equal)
}

/// The relation without the unknown, by an equation that has it.
pub fn cleared(alloc: Global, unknown: u32, equation: &Row, row: Row) -> Result<Row, Stop>
    ensures { Answers tells result (cleared unknown equation.now row) }
{
    if !row.has(unknown) {
        return Ok(row);
    }
    cleared_by(alloc, unknown, equation, &row)
}

/// The relation without the unknown that an upper and a lower bound of it imply.
pub fn crossing(alloc: Global, unknown: u32, up: &Row, low: &Row) -> Result<Row, Stop>
    ensures { Answers tells result (crossing unknown up.now low.now) }
{
    let a = up.coefficient(unknown);
    let b = low.coefficient(unknown);
    let q = opposite_of(b)?;
    made(alloc, a, low, q, up, false)
}
