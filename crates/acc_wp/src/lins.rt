//! Differences of linear values.
ghost use Rattle.std.specs.Prelude.{◌≡◌, [], map, IfOk, OnOk};
ghost use Rattle.std.specs.List.{list_any};
ghost use Rattle.acc_base.specs.Sums.{TellsWide};
ghost use Rattle.acc_instanced.specs.Coefficients.{with_coefficient, enlarged, with_coefficients, is_long};
ghost use Rattle.acc_preconditions.specs.Differences.{all_enlarged, negated, coefficients, lin_minus, is_minus_long};

use acc_base::forms::Lin;
use acc_base::sequences::Seq;
use acc_base::sums::FormSum;
use acc_instances::coefficients::{add_coefficient, drop_zeros, narrow_sum};
use std::alloc::Global;

/// Adds a coefficient.
fn add_one(sums: &mut Vec<(u32, i64)>, term: &(u32, i64)) -> Result<(), FormSum>
    ensures value { OnOk result (sums.new.items ≡ with_coefficient term.now sums.old.items) }
    ensures wide { TellsWide result (is_long (enlarged term.now sums.old.items)) }
{
    add_coefficient(sums, term.0, i128::from(term.1))
}

/// Takes a coefficient away.
fn take_one(sums: &mut Vec<(u32, i64)>, term: &(u32, i64)) -> Result<(), FormSum>
    ensures value { OnOk result (sums.new.items ≡ with_coefficient (negated term.now) sums.old.items) }
    ensures wide { TellsWide result (is_long (enlarged (negated term.now) sums.old.items)) }
{
    add_coefficient(sums, term.0, -i128::from(term.1))
}

/// Adds coefficients one after the other.
fn add_coefficients(sums: &mut Vec<(u32, i64)>, coeffs: &[(u32, i64)]) -> Result<(), FormSum>
    ensures value { OnOk result (sums.new.items ≡ with_coefficients sums.old.items coeffs.now) }
    ensures wide { TellsWide result (list_any is_long (all_enlarged sums.old.items coeffs.now)) }
{
    for term in coeffs {
        add_one(sums, term)?;
    }
    Ok(())
}

/// Takes coefficients away one after the other.
fn take_coefficients(sums: &mut Vec<(u32, i64)>, coeffs: &[(u32, i64)]) -> Result<(), FormSum>
    ensures value { OnOk result (sums.new.items ≡ with_coefficients sums.old.items (map negated coeffs.now)) }
    ensures wide { TellsWide result (list_any is_long (all_enlarged sums.old.items (map negated coeffs.now))) }
{
    for term in coeffs {
        take_one(sums, term)?;
    }
    Ok(())
}

/// The collected coefficients of a - b.
fn collected(alloc: Global, a: &Lin, b: &Lin) -> Result<Vec<(u32, i64)>, FormSum>
    ensures value { IfOk result (λ v. v.items ≡ with_coefficients [] (coefficients a.now b.now)) }
    ensures wide { TellsWide result (list_any is_long (all_enlarged [] (coefficients a.now b.now))) }
{
    let mut sums = Vec::new(alloc);
    add_coefficients(&mut sums, a.coeffs.as_slice())?;
    take_coefficients(&mut sums, b.coeffs.as_slice())?;
    Ok(sums)
}

/// The difference a - b: one coefficient a variable, in the order in which the variables first appear, and none that is 0.
pub fn lin_minus(alloc: Global, a: &Lin, b: &Lin) -> Result<Lin, FormSum>
    ensures value { IfOk result (λ d. d ≡ lin_minus a.now b.now) }
    ensures wide { TellsWide result (is_minus_long a.now b.now) }
{
    let constant = narrow_sum(a.constant, -i128::from(b.constant))?;
    let mut sums = collected(alloc, a, b)?;
    drop_zeros(&mut sums);
    Ok(Lin {
        coeffs: Seq::from_vec(sums),
        constant,
    })
}
