//! Whether multipliers refute relations.
ghost use Rattle.std.specs.Prelude.{◌≡◌, ◌++◌, slice_get, IsTrue, IfOk};
ghost use Rattle.acc_base.specs.Sums.{TellsWide as SumTellsWide};
ghost use Rattle.acc_farkas.specs.Sums.{rises, may_have, signs, refutes_all, is_refuting_wide};
ghost use Rattle.acc_farkas.specs.Solutions.{HaveNoSolution};
ghost use Rattle.acc_farkas.specs.Causes.{TellsWide};

use crate::errors::FarkasError;
use crate::weights::{relation_at, weighted};
use acc_base::forms::Rel;
use acc_base::sequences::Seq;
use acc_base::sums::FormSum;
use std::alloc::Global;

/// The multipliers of relations: each has the relation's place, and the places rise; another relation has 0.
#[derive(Drop)]
pub struct Mults {
    pub of: Seq<(u32, i128)>,
}

/// Whether the places rise and are below n.
fn rises(multipliers: &[(u32, i128)], n: u128) -> bool
    ensures { result ≡ rises 0 n multipliers.now }
{
    let mut from: u64 = 0;
    for (place, _) in multipliers {
        let here = u64::from(*place);
        if here < from || n <= u128::from(here) {
            return false;
        }
        from = here + 1;
    }
    true
}

/// Whether the relation at a place may have a multiplier.
fn may_have(first: &[Rel], more: &[Rel], place: usize, by: i128) -> bool
    ensures { result ≡ may_have by (slice_get (first.now ++ more.now) place) }
{
    match relation_at(first, more, place) {
        Some(relation) => relation.equal || 0 <= by,
        None => false,
    }
}

/// Whether no inequality has a negative multiplier.
fn signs(first: &[Rel], more: &[Rel], multipliers: &[(u32, i128)]) -> bool
    ensures { result ≡ signs (first.now ++ more.now) multipliers.now }
{
    for (place, by) in multipliers {
        if !may_have(first, more, *place as usize, *by) {
            return false;
        }
    }
    true
}

/// Whether the multipliers refute the relations of two lists, the second behind the first.
///
/// `Wide` exactly where the places rise and are there, and a number of the sum is beyond 2^120 on either side of 0. `Memory`
/// where memory ran out.
pub fn refutes_both(
    alloc: Global,
    first: &[Rel],
    more: &[Rel],
    multipliers: &[(u32, i128)],
) -> Result<bool, FormSum>
    ensures value { IfOk result (λ yes. yes ≡ refutes_all (first.now ++ more.now) multipliers.now) }
    ensures wide { SumTellsWide result (is_refuting_wide (first.now ++ more.now) multipliers.now) }
{
    if !rises(multipliers, first.len() as u128 + more.len() as u128) {
        return Ok(false);
    }
    let sum = weighted(alloc, first, more, multipliers)?;
    Ok(signs(first, more, multipliers) && sum.is_positive())
}

/// Whether multipliers refute relations: the places rise and are there, no inequality has a negative multiplier, and the sum of
/// the relations' forms with their multipliers is a positive constant. Then no worths of the unknowns make all relations hold,
/// where the number 1 without condition is worth 1.
///
/// `Wide` exactly where the places rise and are there, and a number of the sum is beyond 2^120 on either side of 0. `Memory`
/// where memory ran out.
pub fn refutes(
    alloc: Global,
    relations: &[Rel],
    multipliers: &[(u32, i128)],
) -> Result<bool, FarkasError>
    ensures value { IfOk result (λ yes. yes ≡ refutes_all relations.now multipliers.now) }
    ensures wide { TellsWide result (is_refuting_wide relations.now multipliers.now) }
    ensures law { IfOk result (λ yes. IsTrue yes → HaveNoSolution relations.now) }
{
    Ok(refutes_both(alloc, relations, &[], multipliers)?)
}
