//! Numbers within 2^45 of 0, and sums and products of numbers within 2^120 of 0.
ghost use Rattle.std.specs.Prelude.{◌≡◌, ◌+ℤ◌, ◌*ℤ◌, SomeIff};
ghost use Rattle.acc_base.specs.Bounded.{IsBounded};
ghost use Rattle.acc_base.specs.Numbers.{is_small};

use crate::bounds::{LARGEST_NUMBER, LARGEST_SUM};

/// Whether a number is one that steps may use: within 2^45 of 0.
pub fn is_small(n: i64) -> bool
    ensures { result ≡ is_small n }
{
    n.unsigned_abs() <= LARGEST_NUMBER
}

/// The number, and none exactly where it lies beyond 2^120 on either side of 0.
pub fn bounded(n: i128) -> Option<i128>
    ensures { SomeIff result (IsBounded n) n }
{
    if LARGEST_SUM < n.unsigned_abs() {
        return None;
    }
    Some(n)
}

/// The sum, and none exactly where it lies beyond 2^120 on either side of 0.
pub fn bounded_sum(a: i128, b: i128) -> Option<i128>
    ensures { SomeIff result (IsBounded (a +ℤ b)) (a +ℤ b) }
{
    bounded(a.checked_add(b)?)
}

/// The product, and none exactly where it lies beyond 2^120 on either side of 0.
pub fn bounded_product(a: i128, b: i128) -> Option<i128>
    ensures { SomeIff result (IsBounded (a *ℤ b)) (a *ℤ b) }
{
    bounded(a.checked_mul(b)?)
}
