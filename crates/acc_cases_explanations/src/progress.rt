//! The lines of long calls.
use acc_diagnose::{found_line, replay_line, work_line};
use acc_progress::Found;
use std::alloc::{AllocError, Global};

/// The number that a word spells; 0 where it spells none.
fn number(word: Option<&str>) -> u64 {
    word.unwrap_or("").parse().unwrap_or(0)
}

/// The line of a replay, spelled: so many events are done, of so many.
pub fn replay(alloc: Global, rest: &str) -> Result<String, AllocError> {
    let mut words = rest.split_whitespace();
    let line = replay_line(alloc, number(words.next()), number(words.next()))?;
    format!(in alloc; "{:?}\n", line.as_str())
}

/// The line of workers, spelled: so many transactions have ended, so many of them in the last second, and so many are under way.
pub fn work(alloc: Global, rest: &str) -> Result<String, AllocError> {
    let mut words = rest.split_whitespace();
    let ended = number(words.next());
    let a_second = number(words.next());
    let line = work_line(alloc, ended, a_second, number(words.next()))?;
    format!(in alloc; "{:?}\n", line.as_str())
}

/// The line of a recovery that found so many events and unfinished transactions, and compensated so many.
pub fn found(alloc: Global, rest: &str) -> Result<String, AllocError> {
    let mut words = rest.split_whitespace();
    let found = Found {
        events: number(words.next()),
        unfinished: number(words.next()),
        compensated: number(words.next()),
    };
    found_line(alloc, found)
}
