//! The numbers of a question, each within its bounds.
ghost use Rattle.std.specs.Prelude.{◌≤◌};
ghost use Rattle.tpcc_gen.specs.Bounds.{IsMix};

use acc_cases_words::words::{number, parted};
use tpcc_gen::{
    LARGEST_START, MOST_CUSTOMERS, MOST_ITEMS, MOST_TRANSACTIONS, MOST_WAREHOUSES, Scale,
};

/// How many transactions a mix has, and the number that it is drawn from.
#[derive(Clone, Copy)]
pub struct MixCase {
    pub count: u64,
    pub start: u64,
    ghost within: { IsMix count start },
}

/// A number from 1 to a bound.
fn within(word: &str, most: u64) -> u64
    requires { 1 ≤ most }
    ensures some { 1 ≤ result }
    ensures few { result ≤ most }
{
    number(word).max(1).min(most)
}

/// The scale that the first three words spell, and what stands behind them.
pub fn scale_of(words: &str) -> (Scale, &str) {
    let (warehouses, rest) = parted(words, " ");
    let (items, rest) = parted(rest, " ");
    let (customers, rest) = parted(rest, " ");
    let scale = Scale {
        warehouses: within(warehouses, MOST_WAREHOUSES),
        items: within(items, MOST_ITEMS),
        customers: within(customers, MOST_CUSTOMERS),
    };
    (scale, rest)
}

/// The count and the start that two words spell.
pub fn mix_of(words: &str) -> MixCase {
    let (count, start) = parted(words, " ");
    MixCase {
        count: number(count).min(MOST_TRANSACTIONS),
        start: number(start).min(LARGEST_START),
    }
}
