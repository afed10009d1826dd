//! Numbers within 2^120 on either side of 0.
ghost use Rattle.acc_base.specs.Computing.{Answers};
ghost use Rattle.acc_rows.specs.Answers.{tells};
ghost use Rattle.acc_rows.specs.Numbers.{kept, product, sum, opposite, size};

use crate::stops::Stop;
use acc_base::numbers::{bounded, bounded_product, bounded_sum};

/// The product.
pub fn product_of(a: i128, b: i128) -> Result<i128, Stop>
    ensures { Answers tells result (product a b) }
{
    bounded_product(a, b).ok_or(Stop::Wide)
}

/// The sum.
pub fn sum_of(a: i128, b: i128) -> Result<i128, Stop>
    ensures { Answers tells result (sum a b) }
{
    bounded_sum(a, b).ok_or(Stop::Wide)
}

/// Less the number.
pub fn opposite_of(n: i128) -> Result<i128, Stop>
    ensures { Answers tells result (opposite n) }
{
    product_of(n, -1)
}

/// The number's distance from 0.
pub fn size_of_number(n: i128) -> Result<i128, Stop>
    ensures { Answers tells result (size n) }
{
    if n < 0 { opposite_of(n) } else { Ok(n) }
}

/// The number, if it isn't too large.
pub fn kept(n: i128) -> Result<i128, Stop>
    ensures { Answers tells result (kept n) }
{
    bounded(n).ok_or(Stop::Wide)
}
