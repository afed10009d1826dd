//! The numbers of a step's reads: of each its key's, and then its value.
ghost use Rattle.std.specs.Prelude.{◌≡◌, ◌+◌, ◌≤◌, ◌<◌, ◌^◌, length, slice_get, Some, IfOk};
ghost use Rattle.acc_base.specs.declared.bounds.TheConstants.{MOST_READS};
ghost use Rattle.acc_base.specs.Reads.{read_key};
ghost use Rattle.acc_oblig.specs.Settings.{step_vars};
ghost use Rattle.acc_oblig.specs.Ranges.{value_asked, setting_numbers};
ghost use Rattle.acc_oblig_clauses.specs.Seen.{seen, HasRoom};
ghost use Rattle.acc_oblig_ranges.specs.Numbers.{one_read_numbers, seen_read, StandsAt, IsFewBounded};

use crate::found::Found;
use acc_base::forms::Lin;
use acc_base::steps::Read;
use acc_oblig::naming::Naming;
use acc_oblig_clauses::{Setting, alone, named_lin, numbers_from, step_vars, with_name, with_self};
use std::alloc::{AllocError, Global};

/// A number of a step's reads, by an obligation's variables: its value, how many of the reads are bounded before it, and whether it
/// has an obligation.
#[derive(Drop)]
pub struct ReadNumber {
    pub value: Lin,
    pub bounded: u32,
    pub asked: bool,
}

/// The key or prefix that a read names.
fn read_key(r: &Read) -> &[Lin]
    ensures { result.now ≡ read_key r.now }
{
    match r {
        Read::Col(_, _, k, _) | Read::Sum(_, _, k, _) => k.as_slice(),
        Read::Has(_, _, k) | Read::Count(_, _, k) => k.as_slice(),
        Read::Least(_, _, k) | Read::Greatest(_, _, k) => k.as_slice(),
        Read::Let(_, _) | Read::Take(_) | Read::Mul(_, _, _) | Read::Div(_, _, _) => &[],
    }
}

/// Whether the value of a read has an obligation: the rows bound the others by themselves.
fn value_asked(r: &Read) -> bool
    ensures { result ≡ value_asked r.now }
{
    match r {
        Read::Has(_, _, _) | Read::Count(_, _, _) => false,
        Read::Least(_, _, _) | Read::Greatest(_, _, _) => false,
        Read::Let(_, _) | Read::Col(_, _, _, _) | Read::Sum(_, _, _, _) => true,
        Read::Take(_) | Read::Mul(_, _, _) | Read::Div(_, _, _) => true,
    }
}

/// The number of a read with this place, where the read's own variable is x and i reads come before it.
fn read_number(
    alloc: Global,
    n: &Naming,
    x: u32,
    i: u32,
    r: &Read,
    place: usize,
) -> Result<ReadNumber, AllocError>
    requires { place ≤ length (read_key r.now) }
    ensures value { IfOk result (λ m. slice_get (one_read_numbers n.now x i r.now) place ≡ Some (seen_read m)) }
    ensures bounded { IfOk result (λ m. m.bounded ≡ i) }
{
    match read_key(r).get(place) {
        Some(l) => Ok(ReadNumber {
            value: named_lin(alloc, n, l)?,
            bounded: i,
            asked: true,
        }),
        None => Ok(ReadNumber {
            value: alone(alloc, x)?,
            bounded: i,
            asked: value_asked(r),
        }),
    }
}

/// What stands at a place among the numbers of a step's reads, or how far behind them the place is.
pub fn among_reads(
    alloc: Global,
    s: &Setting<'_>,
    place: usize,
) -> Result<Found<ReadNumber>, AllocError>
    requires { HasRoom s.now }
    ensures value { IfOk result (StandsAt seen_read (setting_numbers (seen s.now) (step_vars (seen s.now))) place) }
    ensures few { IfOk result IsFewBounded }
{
    let vars = step_vars(s);
    let mut now = numbers_from(alloc, 0, s.locals)?;
    let mut x = s.locals + 1;
    let mut left = place;
    for (i, r) in s.reads.iter().enumerate() {
        let parts = read_key(r).len();
        if left <= parts {
            let n = with_self(&now, s.locals, vars)?;
            return Ok(Found::Number(read_number(alloc, &n, x, i as u32, r, left)?));
        }
        left -= parts + 1;
        now = with_name(now, r.assigned(), x);
        x += 1;
    }
    Ok(Found::Behind(left))
}
