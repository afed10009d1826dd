//! Whether relations between unknowns hold at some point.
ghost use Rattle.std.specs.Prelude.{◌≡◌, ◌*ℤ◌, ◌++◌, ◌∷◌, [], negsuc, Ok, IfOk, IfErr, OnOk};
ghost use Rattle.acc_base.specs.Bounded.{is_wide};
ghost use Rattle.acc_base.specs.Collecting.{multiple};
ghost use Rattle.acc_base.specs.Computing.{StopsBy};
ghost use Rattle.acc_farkas.specs.Solutions.{HaveNoSolution};
ghost use Rattle.acc_elim_solved.specs.Meetings.{Meets};
ghost use Rattle.acc_elim_decisions.specs.Causes.{tells, TellsWide, IfRefuted, IfSolved};
ghost use Rattle.acc_elim_decisions.specs.Decisions.{takes_opposites, opposites, are_opposites_wide, multipliers, are_multipliers_wide};
ghost use Rattle.acc_elim_decisions.specs.Decisions.{refuted, ended, decision};
ghost use Rattle.acc_elim_decisions.specs.Evidence.{Refute};

use crate::verdicts::{ElimError, Verdict};
use acc_base::forms::Rel;
use acc_base::numbers::bounded_product;
use acc_base::sequences::Seq;
use acc_elim_points::searching::searched;
use acc_farkas::refuting::{Mults, refutes};
use acc_rows::rows::Row;
use acc_rows::stops::Stop;
use std::alloc::Global;

/// The opposite of a number.
fn opposite_of(n: i128) -> Result<i128, ElimError>
    ensures value { IfOk result (λ m. m ≡ negsuc 0 *ℤ n) }
    ensures wide { TellsWide result (is_wide (negsuc 0 *ℤ n)) }
{
    bounded_product(-1, n).ok_or(ElimError::Wide)
}

/// Pushes the opposite of a multiplier.
fn push_opposite(ms: &mut Seq<(u32, i128)>, m: (u32, i128)) -> Result<(), ElimError>
    ensures value { OnOk result (ms.new ≡ ms.old ++ multiple (negsuc 0) m ∷ []) }
    ensures wide { TellsWide result (is_wide (negsuc 0 *ℤ m.1)) }
{
    let n = opposite_of(m.1)?;
    ms.push((m.0, n))?;
    Ok(())
}

/// The opposites of multipliers.
fn opposites(alloc: Global, by: &[(u32, i128)]) -> Result<Seq<(u32, i128)>, ElimError>
    ensures value { IfOk result (λ ms. ms ≡ opposites by.now) }
    ensures wide { TellsWide result (are_opposites_wide by.now) }
{
    let mut ms = Seq::new(alloc);
    for m in by {
        push_opposite(&mut ms, *m)?;
    }
    Ok(ms)
}

/// Whether a false constant is an equation with a constant below 0.
fn takes_opposites(row: &Row) -> bool
    ensures { result ≡ takes_opposites row.now }
{
    row.equal && row.constant < 0
}

/// The multipliers of a false constant with which the sum is above 0.
fn multipliers(alloc: Global, row: Row) -> Result<Seq<(u32, i128)>, ElimError>
    ensures value { IfOk result (λ ms. ms ≡ multipliers row) }
    ensures wide { TellsWide result (are_multipliers_wide row) }
{
    if takes_opposites(&row) {
        return opposites(alloc, row.by.as_slice());
    }
    Ok(row.by)
}

/// The multipliers of a false constant refute the relations; `Wide` where a number of the sum that shows it is too large.
fn refuted(alloc: Global, rels: &[Rel], row: Row) -> Result<Verdict, ElimError>
    ensures value { IfOk result (λ v. refuted rels.now row ≡ Ok v) }
    ensures stops { IfErr result (λ e. StopsBy (tells e) e (refuted rels.now row)) }
{
    let ms = multipliers(alloc, row)?;
    refutes(alloc, rels, ms.as_slice())?;
    Ok(Verdict::Refuted(Mults { of: ms }))
}

/// What the end of a search for a point decides.
pub fn ended(
    alloc: Global,
    rels: &[Rel],
    end: Result<Seq<(i128, i128)>, Stop>,
) -> Result<Verdict, ElimError>
    ensures value { IfOk result (λ v. ended rels.now end ≡ Ok v) }
    ensures stops { IfErr result (λ e. StopsBy (tells e) e (ended rels.now end)) }
{
    match end {
        Ok(point) => Ok(Verdict::Solved(point)),
        Err(Stop::Refuted(row)) => refuted(alloc, rels, row),
        Err(Stop::Wide) => Err(ElimError::Wide),
        Err(Stop::Many) => Err(ElimError::Many),
        Err(Stop::Memory) => Err(ElimError::Memory),
    }
}

/// Whether relations hold at some point of rational numbers, by elimination: the unknowns are taken in the order of first appearance,
/// first by equations and then by pairs of bounds (Fourier and Motzkin). The number 1 without condition counts as 1.
///
/// `Refuted` has multipliers that `refutes` accepts, none of which is 0 or beyond 2^120 on either side of 0. `Solved` has a fraction for
/// each unknown, and the relations hold there.
///
/// `Wide` where a number of the elimination is beyond 2^120 on either side of 0, and `Many` where a system has more than 4,096
/// relations, whichever the elimination meets first; the numbers of the sum that shows a refutation come last. `Memory` where memory
/// ran out, or where there are 2^32 relations or unknowns; it says nothing of the relations.
///
/// Each relation of a first system is compared with those before it, and behind an equation with those that it changed; each made one is
/// compared with all. The elimination may square the number of bounds with each unknown.
pub fn decide(alloc: Global, rels: &[Rel]) -> Result<Verdict, ElimError>
    ensures value { IfOk result (λ v. decision rels.now ≡ Ok v) }
    ensures stops { IfErr result (λ e. StopsBy (tells e) e (decision rels.now)) }
    ensures refuted { IfRefuted result (Refute rels.now) }
    ensures unsolvable { IfRefuted result (λ _. HaveNoSolution rels.now) }
    ensures solved { IfSolved result (Meets rels.now) }
{
    let end = searched(alloc, rels);
    ended(alloc, rels, end)
}
