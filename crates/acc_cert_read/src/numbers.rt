//! Numbers as texts, each spelled in one way: decimal digits without leading zeros, with a minus where it is below 0.
ghost use Rattle.std.specs.Prelude.{◌≡◌};
ghost use Rattle.std.specs.Fmt.{signed_decimal};
ghost use Rattle.std.specs.Str.{bytes_eq};
ghost use Rattle.acc_cert_bounds.specs.InBounds.{is_near, is_narrow};
ghost use Rattle.acc_cert_read.specs.Spellings.{number_within, index_in};

use acc_cert_bounds::numbers::is_near;
use itoa::Buffer;

/// Whether a text is the spelling of a number.
fn is_spelling(text: &str, number: i128) -> bool
    ensures { result ≡ bytes_eq (signed_decimal number) text.now }
{
    Buffer::new().format(number).as_bytes() == text.as_bytes()
}

/// The number within 2^120 of 0 that a text spells, if there is one.
pub fn wide(text: &str) -> Option<i128>
    ensures { result ≡ number_within is_near text.now }
{
    let Ok(number) = text.parse() else {
        return None;
    };
    if is_near(number) && is_spelling(text, number) {
        Some(number)
    } else {
        None
    }
}

/// The number of 64 bits that a text spells, if there is one.
pub fn narrow(text: &str) -> Option<i64>
    ensures { result ≡ number_within is_narrow text.now }
{
    let Ok(number) = text.parse() else {
        return None;
    };
    if is_spelling(text, i128::from(number)) {
        Some(number)
    } else {
        None
    }
}

/// A number that is below 2^32.
pub fn index(number: u64) -> Option<u32>
    ensures { result ≡ index_in number }
{
    u32::try_from(number).ok()
}
