//! Sums of any number of terms, without loss: they may leave 128 bits.
ghost use Rattle.std.specs.Prelude.{◌≡◌, ◌≤◌, ◌^◌, ◌+◌, unsigned_abs, ◌+ℤ◌};
ghost use Rattle.acc_step.specs.WideSums.{amount, AreAlike};

use acc_base::bounds::LARGEST_SUM;

/// What is carried: 2^120.
const CARRY: i128 = LARGEST_SUM as i128;

/// A sum: so many carries, and a rest within one carry of 0.
#[derive(Clone, Copy)]
pub struct WideSum {
    pub carries: i128,
    pub rest: i128,
}

/// A sum of two numbers that are not far from 0.
fn plus(a: i128, b: i128) -> i128
    requires near { unsigned_abs a + unsigned_abs b ≤ 2 ^ 126 }
    ensures { result ≡ a +ℤ b }
{
    a + b
}

/// The sum with its rest within one carry of 0 again.
fn carried(carries: i128, rest: i128) -> WideSum
    requires carries { unsigned_abs carries ≤ 2 ^ 100 }
    requires rest { unsigned_abs rest ≤ 2 ^ 121 }
    ensures amount { amount result ≡ amount (record { carries = carries; rest = rest }) }
    ensures carries { unsigned_abs result.carries ≤ unsigned_abs carries + 1 }
    ensures rest { unsigned_abs result.rest ≤ LARGEST_SUM }
{
    if rest > CARRY {
        WideSum {
            carries: plus(carries, 1),
            rest: plus(rest, -CARRY),
        }
    } else if rest < -CARRY {
        WideSum {
            carries: plus(carries, -1),
            rest: plus(rest, CARRY),
        }
    } else {
        WideSum { carries, rest }
    }
}

/// The sum and one more number.
pub fn with_more(sum: WideSum, more: i128) -> WideSum
    requires carries { unsigned_abs sum.carries ≤ 2 ^ 100 }
    requires rest { unsigned_abs sum.rest ≤ LARGEST_SUM }
    requires more { unsigned_abs more ≤ LARGEST_SUM }
    ensures amount { amount result ≡ amount sum +ℤ more }
    ensures carries { unsigned_abs result.carries ≤ unsigned_abs sum.carries + 1 }
    ensures rest { unsigned_abs result.rest ≤ LARGEST_SUM }
{
    carried(sum.carries, plus(sum.rest, more))
}

/// The amount of a sum; where that is far from 0, one carry on the same side.
pub fn shortened(sum: WideSum) -> i128
    requires rest { unsigned_abs sum.rest ≤ LARGEST_SUM }
    ensures { AreAlike result (amount sum) }
{
    match sum.carries {
        0 => sum.rest,
        1 => plus(sum.rest, CARRY),
        -1 => plus(sum.rest, -CARRY),
        carries if carries > 0 => CARRY,
        _ => -CARRY,
    }
}
