//! How many calls ended so, and how many turns went so.
ghost use Rattle.std.specs.Prelude.{◌≡◌, ◌==◌, count_by};
ghost use Rattle.acc_player.specs.declared.details.TheConstants.{BLOCKED, VICTIM};
ghost use Rattle.acc_bench.specs.Counts.{commits, compensates, is_committed, is_compensated};

use acc_base::machines::{Outcome, Reply};
use acc_index_store::IndexStore;
use acc_lock_rules::State;

/// Whether a reply is that of a commit.
fn is_committed(reply: &Reply) -> bool
    ensures { result ≡ is_committed reply.now }
{
    match reply.outcome {
        Outcome::Committed(_) => true,
        Outcome::Compensated(_) => false,
    }
}

/// Whether a reply is that of a compensation.
fn is_compensated(reply: &Reply) -> bool
    ensures { result ≡ is_compensated reply.now }
{
    match reply.outcome {
        Outcome::Committed(_) => false,
        Outcome::Compensated(_) => true,
    }
}

/// Whether a place's transaction has committed.
fn commits(state: &State<IndexStore>, number: Option<u64>) -> bool
    ensures { result ≡ commits state.now.world number }
{
    match number {
        Some(t) => match state.reply(t) {
            Some(reply) => is_committed(reply),
            None => false,
        },
        None => false,
    }
}

/// Whether a place's transaction was compensated.
fn compensates(state: &State<IndexStore>, number: Option<u64>) -> bool
    ensures { result ≡ compensates state.now.world number }
{
    match number {
        Some(t) => match state.reply(t) {
            Some(reply) => is_compensated(reply),
            None => false,
        },
        None => false,
    }
}

/// How many places' transactions have committed.
pub fn committed(state: &State<IndexStore>, numbers: &[Option<u64>]) -> u64
    ensures { result ≡ count_by (commits state.now.world) numbers.now }
{
    numbers
        .iter()
        .filter(|number| commits(state, **number))
        .count() as u64
}

/// How many places' transactions were compensated.
pub fn compensated(state: &State<IndexStore>, numbers: &[Option<u64>]) -> u64
    ensures { result ≡ count_by (compensates state.now.world) numbers.now }
{
    numbers
        .iter()
        .filter(|number| compensates(state, **number))
        .count() as u64
}

/// How often a mark was kept.
pub fn marks(text: &[u8], mark: u8) -> u64
    ensures { result ≡ count_by (λ b. b == mark) text.now }
{
    text.iter().filter(|byte| **byte == mark).count() as u64
}
