//! Linear values, by arithmetic that goes no further than 2^120 on either side of 0.
ghost use Rattle.std.specs.Prelude.{◌≡◌, ◌≤◌, length, map, pos, true, ◌+ℤ◌, ◌*ℤ◌};
ghost use Rattle.std.specs.List.{list_all};
ghost use Rattle.acc_base.specs.Linear.{var, term_value, lin_value, lin_values};
ghost use Rattle.acc_base.specs.Runnable.{IsKey};
ghost use Rattle.acc_step.specs.InRange.{if_small, if_all_small};
ghost use Rattle.acc_audit_trial.specs.Worths.{near, near_term, plus_near, summed, lin_worth, is_near};

use acc_base::bounds::{LARGEST_NUMBER, MOST_KEY_PARTS};
use acc_base::forms::Lin;
use acc_base::numbers::{bounded_product, bounded_sum};
use acc_store::Inline;

/// The farthest from 0 that a component of a row's key may be.
const RANGE: i128 = LARGEST_NUMBER as i128;

/// A sum, and none where it lies beyond 2^120 on either side of 0.
pub fn near_sum(a: i128, b: i128) -> Option<i128>
    ensures { result ≡ near (a +ℤ b) }
{
    bounded_sum(a, b)
}

/// A product, and none where it lies beyond 2^120 on either side of 0.
pub fn near_product(a: i128, b: i128) -> Option<i128>
    ensures { result ≡ near (a *ℤ b) }
{
    bounded_product(a, b)
}

/// The value of a variable, which is 0 where there is none.
pub fn value(values: &[i64], x: u32) -> i128
    ensures { result ≡ var values.now x }
{
    match values.get(x as usize) {
        Some(value) => *value as i128,
        None => 0,
    }
}

/// A coefficient times its variable.
fn product(term: &(u32, i64), values: &[i64]) -> Option<i128>
    ensures { result ≡ near_term values.now term.now }
{
    near_product(term.1 as i128, value(values, term.0))
}

/// A sum and one more term.
fn with_term(sum: i128, term: &(u32, i64), values: &[i64]) -> Option<i128>
    ensures { result ≡ plus_near sum (near_term values.now term.now) }
{
    match product(term, values) {
        Some(product) => near_sum(sum, product),
        None => None,
    }
}

/// The sum of terms.
fn terms_sum(terms: &[(u32, i64)], values: &[i64]) -> Option<i128>
    ensures { result ≡ summed (pos 0) (map (near_term values.now) terms.now) }
{
    let mut sum = 0;
    for term in terms {
        match with_term(sum, term, values) {
            Some(more) => sum = more,
            None => return None,
        }
    }
    Some(sum)
}

/// A linear value, and none where a product or a sum on the way lies beyond 2^120 on either side of 0.
fn linear(l: &Lin, values: &[i64]) -> Option<i128>
    ensures { result ≡ lin_worth values.now l.now }
{
    match terms_sum(l.coeffs.as_slice(), values) {
        Some(sum) => near_sum(sum, l.constant as i128),
        None => None,
    }
}

/// Whether no number of a linear value lies beyond 2^120.
fn is_near(l: &Lin, values: &[i64]) -> bool
    ensures { result ≡ is_near values.now l.now }
{
    linear(l, values).is_some()
}

/// Whether that is so of each of some linear values.
pub fn are_near(ls: &[Lin], values: &[i64]) -> bool
    ensures { result ≡ list_all (is_near values.now) ls.now }
{
    ls.iter().all(|l| is_near(l, values))
}

/// A number, if it is in the range of the components of keys.
fn in_range(v: i128) -> Option<i64>
    ensures { result ≡ if_small v }
{
    if -RANGE <= v && v <= RANGE {
        Some(v as i64)
    } else {
        None
    }
}

/// A linear value, if it is in that range.
fn part(l: &Lin, values: &[i64]) -> Option<i64>
    requires near { is_near values.now l.now ≡ true }
    ensures { result ≡ if_small (lin_value values.now l.now) }
{
    match linear(l, values) {
        Some(v) => in_range(v),
        None => None,
    }
}

/// The components of a key, if each is in that range.
pub fn parts(key: &[Lin], values: &[i64]) -> Option<Inline<i64, MOST_KEY_PARTS>>
    requires key { IsKey key.now }
    requires near { list_all (is_near values.now) key.now ≡ true }
    ensures { result ≡ if_all_small (lin_values values.now key.now) }
{
    let mut parts = Inline::new(0);
    for l in key {
        match part(l, values) {
            Some(v) => parts.push(v),
            None => return None,
        }
    }
    Some(parts)
}
