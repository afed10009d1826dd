//! Coefficients of linear values, collected. A number that needs more than 64 bits is too large.
ghost use Rattle.std.specs.Prelude.{◌≡◌, ◌<◌, ◌+ℤ◌, ◌*ℤ◌, ◌==◌, filter, length, position, IfOk, IfSome, OnOk};
ghost use Rattle.acc_base.specs.Sums.{TellsWide};
ghost use Rattle.acc_instanced.specs.Coefficients.{with_coefficient, enlarged, counts, is_long};

use acc_base::sums::FormSum;

/// A number of a linear value.
pub fn narrow(n: i128) -> Result<i64, FormSum>
    ensures value { IfOk result (λ m. m ≡ n) }
    ensures wide { TellsWide result (is_long n) }
{
    i64::try_from(n).map_err(|_| FormSum::Wide)
}

/// The sum of two numbers as one of a linear value.
pub fn narrow_sum(a: i64, b: i128) -> Result<i64, FormSum>
    ensures value { IfOk result (λ m. m ≡ a +ℤ b) }
    ensures wide { TellsWide result (is_long (a +ℤ b)) }
{
    match i128::from(a).checked_add(b) {
        Some(sum) => narrow(sum),
        None => Err(FormSum::Wide),
    }
}

/// The place of a variable's coefficient.
fn place_of(variable: u32, coeffs: &[(u32, i64)]) -> Option<usize>
    ensures value { result ≡ position (λ c. c.0 == variable) coeffs.now }
    ensures within { IfSome result (λ i. i < length coeffs.now) }
{
    coeffs.iter().position(|c| c.0 == variable)
}

/// Adds a coefficient to that of its variable. The cost is that of going over the coefficients.
pub fn add_coefficient(sums: &mut Vec<(u32, i64)>, variable: u32, n: i128) -> Result<(), FormSum>
    ensures value { OnOk result (sums.new.items ≡ with_coefficient (variable, n) sums.old.items) }
    ensures wide { TellsWide result (is_long (enlarged (variable, n) sums.old.items)) }
{
    match place_of(variable, sums.as_slice()) {
        Some(i) => {
            let term = &mut sums[i];
            term.1 = narrow_sum(term.1, n)?;
        }
        None => {
            let coefficient = narrow(n)?;
            sums.push((variable, coefficient))?;
        }
    }
    Ok(())
}

/// Drops the coefficients that are 0.
pub fn drop_zeros(sums: &mut Vec<(u32, i64)>)
    ensures { sums.new.items ≡ filter counts sums.old.items }
{
    sums.retain(|c| c.1 != 0);
}

/// A product of numbers of linear values.
pub fn narrow_product(a: i64, b: i64) -> Result<i64, FormSum>
    ensures value { IfOk result (λ m. m ≡ a *ℤ b) }
    ensures wide { TellsWide result (is_long (a *ℤ b)) }
{
    match i128::from(a).checked_mul(i128::from(b)) {
        Some(product) => narrow(product),
        None => Err(FormSum::Wide),
    }
}
