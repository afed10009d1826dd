//! Numbers in runs of up to 100.
ghost use Rattle.std.specs.Prelude.{◌≡◌, ◌+◌, ◌≤◌, ◌<◌, ◌^◌};
ghost use Rattle.tpcc_gen.specs.Loads.{runs, run_first, run_length, drawn_for, run_tape};
ghost use Rattle.tpcc_gen.specs.Writing.{Writes};

use crate::bounds::MOST_ITEMS;
use crate::pushes::push_numbers;
use crate::words::Words;
use acc_page::Page;

/// How many numbers there are in a whole run.
const RUN: u64 = 100;

/// So many numbers from the first on.
#[derive(Clone, Copy)]
pub struct Run {
    pub first: u64,
    pub count: u64,
}

/// Into how many runs so many numbers are parted.
pub fn run_count(total: u64) -> u64
    requires { total ≤ MOST_ITEMS }
    ensures { result ≡ runs total }
{
    (total + (RUN - 1)) / RUN
}

/// Run r, from 1, of so many numbers.
pub fn run_of(total: u64, r: u64) -> Run
    requires some { 1 ≤ r }
    requires within { r ≤ runs total }
    requires few { total ≤ MOST_ITEMS }
    ensures first { result.first ≡ run_first r }
    ensures count { result.count ≡ run_length total r }
{
    let first = RUN * r - (RUN - 1);
    Run {
        first,
        count: RUN.min(total + 1 - first),
    }
}

/// Writes a number, and one from `low` to `high` that is drawn for it.
#[tactic(auto, unfolding(crate::specs::Loads::drawn_for))]
fn push_drawn(out: &mut Page, words: &mut Words, low: u64, high: u64, k: u64)
    requires some { low ≤ high }
    requires small { high < 2 ^ 32 }
    ensures { Writes out.old words.old out.new words.new (drawn_for low high k) }
{
    let value = words.random(low, high);
    push_numbers(out, &[k, value]);
}

/// Writes the tape of a run: each number of it, with one from `low` to `high` that is drawn for it.
pub fn push_run(out: &mut Page, words: &mut Words, low: u64, high: u64, run: Run)
    requires some { low ≤ high }
    requires small { high < 2 ^ 32 }
    requires room { run.first + run.count < 2 ^ 32 }
    ensures { Writes out.old words.old out.new words.new (run_tape low high run.first run.count) }
{
    for k in run.first..run.first + run.count {
        push_drawn(out, words, low, high, k);
    }
}
