//! How far a long call is, what a recovery found, and what a benchmark took, as lines.
use acc_progress::{BenchPart, Found};
use std::alloc::{AllocError, Global};

const MILLIS_A_SECOND: u64 = 1_000;

const KILOBYTES_A_MEGABYTE: u64 = 1_024;

/// How the line of Linux's `/proc/self/status` begins that tells the most memory that a process had, in units of 1,024 bytes.
const PEAK: &str = "VmHWM:";

/// How far a replay is. It takes the place of the line that the terminal stands in.
pub fn replay_line(alloc: Global, done: u64, events: u64) -> Result<String, AllocError> {
    format!(in alloc; "\rreplayed {done} of {events} events")
}

/// How far the search for a design's proofs is. It takes the place of the line that the terminal stands in.
pub fn search_line(
    alloc: Global,
    done: u64,
    obligations: u64,
    open: u64,
) -> Result<String, AllocError> {
    let found = done.saturating_sub(open);
    format!(in alloc; "\rsearched {done} of {obligations} obligations: {found} proved, {open} open")
}

/// How far workers are: how many transactions have ended, how many of them in the last second, and how many have begun and not ended. It
/// takes the place of the line that the terminal stands in; the blanks cover what a longer one left there.
pub fn work_line(
    alloc: Global,
    ended: u64,
    a_second: u64,
    under_way: u64,
) -> Result<String, AllocError> {
    format!(in alloc;
        "\rended {ended} transactions, {a_second} a second, {under_way} under way      "
    )
}

/// What a benchmark does. It takes the place of the line that the terminal stands in; the blanks cover what a longer one left there.
pub fn part_line(part: BenchPart) -> &'static [u8] {
    match part {
        BenchPart::Load => b"\rruns the load         ",
        BenchPart::Mix => b"\rruns the mix          ",
        BenchPart::Conditions => b"\rtries the conditions  ",
    }
}

/// How many events a benchmark made in so many milliseconds, and how many that is a second.
pub fn speed_line(alloc: Global, events: u64, millis: u64) -> Result<String, AllocError> {
    let millis = millis.max(1);
    let seconds = millis / MILLIS_A_SECOND;
    let rest = millis % MILLIS_A_SECOND;
    let a_second = events.saturating_mul(MILLIS_A_SECOND) / millis;
    format!(in alloc; "{events} events in {seconds}.{rest:03} s, {a_second} a second\n")
}

/// How much memory the program had at most, in megabytes, by what the system tells of it; none where it tells nothing of it.
pub fn memory_line(alloc: Global, told: &str) -> Result<Option<String>, AllocError> {
    match peak_kilobytes(told) {
        Some(kilobytes) => {
            let megabytes = kilobytes / KILOBYTES_A_MEGABYTE;
            Ok(Some(format!(in alloc; "{megabytes} MB of memory at most\n")?))
        }
        None => Ok(None),
    }
}

/// How much memory a process had at most, in units of 1,024 bytes, by what the system tells of it.
fn peak_kilobytes(told: &str) -> Option<u64> {
    let line = told.lines().find(|line| line.starts_with(PEAK))?;
    let number = line.split_ascii_whitespace().nth(1)?;
    number.parse().ok()
}

/// What a recovery found in the journal, and how much it compensated.
pub fn found_line(alloc: Global, found: Found) -> Result<String, AllocError> {
    let Found {
        events,
        unfinished,
        compensated,
    } = found;
    format!(in alloc;
        "recovery found {events} events, {unfinished} unfinished, {compensated} compensated\n"
    )
}
