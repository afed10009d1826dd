//! Whether a number is within the bounds of a certificate's file.
ghost use Rattle.std.specs.Prelude.{◌≡◌, IsTrue};
ghost use Rattle.acc_cert_bounds.specs.InBounds.{is_near, is_narrow, index};

use acc_base::bounds::LARGEST_SUM;

/// Whether a number is within 2^120 of 0.
pub fn is_near(number: i128) -> bool
    ensures { result ≡ is_near number }
{
    number.unsigned_abs() <= LARGEST_SUM
}

/// That a number has 64 bits, which is so by its type.
pub fn is_narrow(number: i64) -> bool
    ensures value { result ≡ is_narrow number }
    ensures always { IsTrue result }
{
    number <= i64::MAX
}

/// That a number is below 2^32, which is so by its type.
pub fn is_index(number: u32) -> bool
    ensures value { result ≡ index number }
    ensures always { IsTrue result }
{
    number <= u32::MAX
}
