//! The numbers that words tell.
ghost use Rattle.std.specs.Prelude.{◌≡◌, ◌≢◌, ℕ, MatchOption, map, string_bytes, decimal};
ghost use Rattle.std.specs.Str.{bytes_eq};
ghost use Rattle.acc_commands_inputs.specs.Scales.{IsWithin, is_within};
ghost use Rattle.acc_commands_inputs.specs.Words.{number_of, scale_of, mix_of};

use crate::scales::{AskedScale, Mix};
use itoa::Buffer;
use tpcc_gen::{LARGEST_START, MOST_CUSTOMERS, MOST_ITEMS, MOST_TRANSACTIONS, MOST_WAREHOUSES};

/// Whether a number is within bounds.
fn is_within(least: u64, most: u64, number: u64) -> bool
    ensures { result ≡ is_within least most number }
{
    (least..=most).contains(&number)
}

/// Whether a word is the numeral of a number: its decimal digits, without a sign or a leading zero.
fn is_numeral_of(word: &str, number: u64) -> bool
    ensures { result ≡ bytes_eq (decimal number) word.now }
{
    Buffer::new().format(number).as_bytes() == word.as_bytes()
}

/// The number from the least to the most of which a word is the numeral, without a sign or a leading zero, if there is one.
pub fn number_of(least: u64, most: u64, word: &str) -> Option<u64>
    ensures meaning { MatchOption result ((n : ℕ) → IsWithin least most n → word.now ≢ decimal n)
        (λ n. IsWithin least most n × (word.now ≡ decimal n)) }
    ensures value { result ≡ number_of least most word.now }
{
    let Ok(number) = word.parse() else {
        return None;
    };
    if is_within(least, most, number) && is_numeral_of(word, number) {
        Some(number)
    } else {
        None
    }
}

/// The scale that three words tell.
pub(crate) fn scale_of(warehouses: &str, items: &str, customers: &str) -> Option<AskedScale>
    ensures { result ≡ scale_of warehouses.now items.now customers.now }
{
    let warehouses = number_of(1, MOST_WAREHOUSES, warehouses)?;
    let items = number_of(1, MOST_ITEMS, items)?;
    let customers = number_of(1, MOST_CUSTOMERS, customers)?;
    Some(AskedScale {
        warehouses,
        items,
        customers,
    })
}

/// The mix that five words tell.
pub(crate) fn mix_of(words: &[String]) -> Option<Mix>
    ensures { result ≡ mix_of (map string_bytes words.now) }
{
    let [warehouses, items, customers, count, start] = words else {
        return None;
    };
    let scale = scale_of(warehouses.as_str(), items.as_str(), customers.as_str())?;
    let count = number_of(0, MOST_TRANSACTIONS, count.as_str())?;
    let start = number_of(0, LARGEST_START, start.as_str())?;
    Some(Mix {
        scale,
        count,
        start,
    })
}
