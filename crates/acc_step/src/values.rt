//! Linear values of a transaction's variables, and values in range.
ghost use Rattle.std.specs.Prelude.{◌≡◌, ◌≤◌, ◌^◌, ◌+◌, length, map, unsigned_abs, ◌+ℤ◌, ◌*ℤ◌};
ghost use Rattle.acc_base.specs.Numbers.{IsSmall, total};
ghost use Rattle.acc_base.specs.Linear.{term_value, lin_value, lin_values};
ghost use Rattle.acc_base.specs.Runnable.{IsKey};
ghost use Rattle.acc_step.specs.InRange.{if_small, if_all_small};
ghost use Rattle.acc_step.specs.WideSums.{amount, AreAlike};
ghost use Rattle.acc_step.specs.Variables.{values_of};

use crate::variables::Variables;
use crate::wide_sums::{WideSum, shortened, with_more};
use acc_base::bounds::{LARGEST_NUMBER, LARGEST_SUM, MOST_KEY_PARTS};
use acc_base::forms::Lin;
use acc_store::Inline;

/// The farthest from 0 that a number of a step may be.
const RANGE: i128 = LARGEST_NUMBER as i128;

/// The same number in more bits.
pub fn widened(x: i64) -> i128
    ensures { result ≡ x }
{
    x as i128
}

/// A product, which always fits.
pub fn times(a: i64, b: i64) -> i128
    ensures { result ≡ a *ℤ b }
{
    widened(a) * widened(b)
}

/// A sum and one more product.
fn with_product(sum: WideSum, factor: i64, value: i64) -> WideSum
    requires carries { unsigned_abs sum.carries ≤ 2 ^ 100 }
    requires rest { unsigned_abs sum.rest ≤ LARGEST_SUM }
    requires value { IsSmall value }
    ensures amount { amount result ≡ amount sum +ℤ (factor *ℤ value) }
    ensures carries { unsigned_abs result.carries ≤ unsigned_abs sum.carries + 1 }
    ensures rest { unsigned_abs result.rest ≤ LARGEST_SUM }
{
    with_more(sum, times(factor, value))
}

/// A sum and one more term.
fn with_term(sum: WideSum, term: &(u32, i64), variables: &Variables) -> WideSum
    requires carries { unsigned_abs sum.carries ≤ 2 ^ 100 }
    requires rest { unsigned_abs sum.rest ≤ LARGEST_SUM }
    ensures amount { amount result ≡ amount sum +ℤ term_value (values_of variables.now) term.now }
    ensures carries { unsigned_abs result.carries ≤ unsigned_abs sum.carries + 1 }
    ensures rest { unsigned_abs result.rest ≤ LARGEST_SUM }
{
    with_product(sum, term.1, variables.value(term.0))
}

/// The sum of terms.
fn terms_sum(terms: &[(u32, i64)], variables: &Variables) -> WideSum
    ensures amount { amount result ≡ total (map (term_value (values_of variables.now)) terms.now) }
    ensures carries { unsigned_abs result.carries ≤ 2 ^ 100 }
    ensures rest { unsigned_abs result.rest ≤ LARGEST_SUM }
{
    let mut sum = WideSum {
        carries: 0,
        rest: 0,
    };
    for term in terms {
        sum = with_term(sum, term, variables);
    }
    sum
}

/// A linear value, exactly.
fn linear_sum(l: &Lin, variables: &Variables) -> WideSum
    ensures amount { amount result ≡ lin_value (values_of variables.now) l.now }
    ensures rest { unsigned_abs result.rest ≤ LARGEST_SUM }
{
    let terms = terms_sum(l.coeffs.as_slice(), variables);
    with_more(terms, widened(l.constant))
}

/// A linear value. Where it is far from 0 the number is too, on the same side.
pub fn linear(l: &Lin, variables: &Variables) -> i128
    ensures { AreAlike result (lin_value (values_of variables.now) l.now) }
{
    shortened(linear_sum(l, variables))
}

/// A number, if it is in range.
pub fn in_range(v: i128) -> Option<i64>
    ensures { result ≡ if_small v }
{
    if -RANGE <= v && v <= RANGE {
        Some(v as i64)
    } else {
        None
    }
}

/// A linear value, if it is in range.
#[tactic(auto, using(crate::proofs::Alike::alike_if_small))]
pub fn linear_in_range(l: &Lin, variables: &Variables) -> Option<i64>
    ensures { result ≡ if_small (lin_value (values_of variables.now) l.now) }
{
    in_range(linear(l, variables))
}

/// Linear values, if all are in range.
pub fn linears_in_range<const N: usize>(ls: &[Lin], variables: &Variables) -> Option<Inline<i64, N>>
    requires few { length ls.now ≤ N }
    ensures { result ≡ if_all_small (lin_values (values_of variables.now) ls.now) }
{
    let mut values = Inline::new(0);
    for l in ls {
        match linear_in_range(l, variables) {
            Some(v) => values.push(v),
            None => return None,
        }
    }
    Some(values)
}

/// The parts of a key, if they are in range.
pub fn key_in_range(key: &[Lin], variables: &Variables) -> Option<Inline<i64, MOST_KEY_PARTS>>
    requires key { IsKey key.now }
    ensures { result ≡ if_all_small (lin_values (values_of variables.now) key.now) }
{
    linears_in_range(key, variables)
}
