//! Fractions in lowest terms, with a denominator above 0.
ghost use Rattle.std.specs.Prelude.{◌≡◌};
ghost use Rattle.acc_base.specs.Computing.{Answers};
ghost use Rattle.acc_rows.specs.Answers.{tells};
ghost use Rattle.acc_elim_points.specs.Fractions.{reduced, upright, fraction, numerator, over, plus_times, solved, is_less};

use acc_rows::divisors::{divisor, quotient};
use acc_rows::numbers::{opposite_of, product_of, sum_of};
use acc_rows::stops::Stop;

/// n / d, divided by what divides both.
fn reduced(n: i128, d: i128) -> (i128, i128)
    ensures { result ≡ reduced n d }
{
    let by = divisor(n.unsigned_abs(), d.unsigned_abs());
    if by <= 1 {
        return (n, d);
    }
    (quotient(n, by), quotient(d, by))
}

/// The same fraction with a denominator above 0.
fn upright(x: (i128, i128)) -> Result<(i128, i128), Stop>
    ensures { Answers tells result (upright x) }
{
    if x.1 >= 0 {
        return Ok(x);
    }
    let n = opposite_of(x.0)?;
    let d = opposite_of(x.1)?;
    Ok((n, d))
}

/// The fraction n / d in lowest terms.
fn fraction(n: i128, d: i128) -> Result<(i128, i128), Stop>
    ensures { Answers tells result (fraction n d) }
{
    upright(reduced(n, d))
}

/// The numerator of the sum of two fractions, where `m` is that of the second.
fn numerator(x: (i128, i128), m: i128, y: (i128, i128)) -> Result<i128, Stop>
    ensures { Answers tells result (numerator x m y) }
{
    let a = product_of(x.0, y.1)?;
    let b = product_of(m, x.1)?;
    sum_of(a, b)
}

/// The sum of two fractions with this numerator.
fn over(n: i128, x: (i128, i128), y: (i128, i128)) -> Result<(i128, i128), Stop>
    ensures { Answers tells result (over n x y) }
{
    let d = product_of(x.1, y.1)?;
    fraction(n, d)
}

/// x + c * y.
pub fn plus_times(x: (i128, i128), c: i128, y: (i128, i128)) -> Result<(i128, i128), Stop>
    ensures { Answers tells result (plus_times x c y) }
{
    let m = product_of(c, y.0)?;
    let n = numerator(x, m, y)?;
    over(n, x, y)
}

/// - x / a.
pub fn solved(x: (i128, i128), a: i128) -> Result<(i128, i128), Stop>
    ensures { Answers tells result (solved x a) }
{
    let n = opposite_of(x.0)?;
    let d = product_of(a, x.1)?;
    fraction(n, d)
}

/// Whether x is less than y.
pub fn is_less(x: (i128, i128), y: (i128, i128)) -> Result<bool, Stop>
    ensures { Answers tells result (is_less x y) }
{
    let a = product_of(x.0, y.1)?;
    let b = product_of(y.0, x.1)?;
    Ok(a < b)
}
