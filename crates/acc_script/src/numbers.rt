//! Whole numbers in decimal: without a plus, without leading zeros, and never `-0`.
ghost use Rattle.std.specs.Prelude.{◌≡◌, ◌≢◌, ℕ, ◌^◌, ◌<◌, ◌≤◌, true, MatchOption, ℤ};
ghost use Rattle.std.specs.Fmt.{decimal, signed_decimal};
ghost use Rattle.std.specs.Char.{is_ascii_digit};
ghost use Rattle.std.specs.List.{list_all};
ghost use Rattle.std.specs.Str.Parse.{digits_value};
ghost use Rattle.acc_base.specs.Numbers.{IsSmall};
ghost use Rattle.acc_script.specs.Numerals.{is_numeral};
ghost use Rattle.acc_script.specs.OrderLines.{IsPlace};

use acc_base::bounds::{LARGEST_NUMBER, LATEST_ASK};

/// The largest number of steps after which a call can be asked to turn.
const LATEST: u64 = LATEST_ASK as u64;

fn are_digits(bytes: &[u8]) -> bool
    ensures { result ≡ list_all is_ascii_digit bytes.now }
{
    bytes.iter().all(|b| b.is_ascii_digit())
}

/// Whether a word is made of digits, and of one alone where it begins with 0.
fn is_numeral(word: &[u8]) -> bool
    ensures { result ≡ is_numeral word.now }
{
    match word.split_first() {
        Some((first, rest)) => {
            first.is_ascii_digit() && are_digits(rest) && (*first != b'0' || rest.is_empty())
        }
        None => false,
    }
}

/// The value of digits, where it is below 2^64.
fn value_of(digits: &[u8]) -> Option<u64>
    requires { list_all is_ascii_digit digits.now ≡ true }
    ensures { MatchOption result (2 ^ 64 ≤ digits_value 10 digits.now) (λ value. (value < 2 ^ 64) × (value ≡ digits_value 10 digits.now)) }
{
    let mut value: u64 = 0;
    for b in digits {
        value = value.checked_mul(10)?.checked_add(u64::from(*b - b'0'))?;
    }
    Some(value)
}

/// The number below 2^64 that a word spells, if there is one.
fn natural(word: &[u8]) -> Option<u64>
    ensures { MatchOption result ((n : ℕ) → n < 2 ^ 64 → word.now ≢ decimal n) (λ n. (n < 2 ^ 64) × (word.now ≡ decimal n)) }
{
    if is_numeral(word) {
        value_of(word)
    } else {
        None
    }
}

/// The number up to a bound that a word spells, if there is one.
fn bounded(word: &[u8], most: u64) -> Option<u64>
    ensures { MatchOption result ((n : ℕ) → n ≤ most → word.now ≢ decimal n) (λ n. (n ≤ most) × (word.now ≡ decimal n)) }
{
    let n = natural(word)?;
    if n <= most { Some(n) } else { None }
}

/// The number up to 2^45 that a word spells, if there is one.
fn magnitude(word: &[u8]) -> Option<u64>
    ensures { MatchOption result ((n : ℕ) → n ≤ 2 ^ 45 → word.now ≢ decimal n) (λ n. (n ≤ 2 ^ 45) × (word.now ≡ decimal n)) }
{
    bounded(word, LARGEST_NUMBER)
}

/// The number of steps, up to 65,536, that a word spells, if there is one.
pub fn steps(word: &[u8]) -> Option<u32>
    ensures { MatchOption result ((n : ℕ) → n ≤ LATEST_ASK → word.now ≢ decimal n) (λ n. (n ≤ LATEST_ASK) × (word.now ≡ decimal n)) }
{
    let n = bounded(word, LATEST)?;
    Some(n as u32)
}

/// The number within 2^45 of 0 that a word spells, if there is one.
pub fn integer(word: &[u8]) -> Option<i64>
    ensures { MatchOption result ((v : ℤ) → IsSmall v → word.now ≢ signed_decimal v) (λ v. IsSmall v × (word.now ≡ signed_decimal v)) }
{
    match word.split_first() {
        Some((b'-', digits)) => match magnitude(digits)? {
            0 => None,
            n => Some(-(n as i64)),
        },
        _ => Some(magnitude(word)? as i64),
    }
}

/// The number of one of so many places that a word spells, if it does.
pub fn place(word: &[u8], places: u64) -> Option<u64>
    ensures { MatchOption result ((k : ℕ) → IsPlace places k → word.now ≢ decimal k) (λ k. IsPlace places k × (word.now ≡ decimal k)) }
{
    let k = natural(word)?;
    if 1 <= k && k <= places { Some(k) } else { None }
}
