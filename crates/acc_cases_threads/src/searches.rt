//! Proving by searches in threads, and by the same searches one after the other.
ghost use Rattle.acc_search_threads.specs.WellFormed.{IsWellFormed};

use crate::answers::{Answered, answer, answer_alone};
use acc_cases_commands::memory;
use acc_crew::Alone;
use acc_search_threads::{Searching, search_in_threads};
use std::alloc::AllocError;
use std::fs::File;
use std::io;
use std::rt::Files;
use std::thread::Threads;

/// So many obligations are searched at once: a number that divides no example's, so that fewer are left at the end.
const AT_ONCE: usize = 7;

/// Answers a command line, where the searches for proofs run in threads.
fn answer_by_searches<R: Files<File = File> + AllocGlobal, T: Threads + Sync>(
    rt: &R,
    threads: &T,
    line: &str,
) -> Result<Answered, AllocError> {
    let searchers = Searching::new(
        AT_ONCE,
        |alloc, d, sequents|
            requires { IsWellFormed d.now }
        { search_in_threads(threads, alloc, d, sequents) },
    );
    let disk = memory::disk(rt.alloc(), &[], &[], None)?;
    answer(rt, line, disk, &Alone, &searchers, &mut None)
}

/// Tells whether a design is proved by the same bytes in threads as without, and the status.
pub fn tell_searches<R: Files<File = File> + Print + AllocGlobal, T: Threads + Sync>(
    rt: &R,
    threads: &T,
    design: &str,
) -> io::Result<()> {
    let line = format!(in rt.alloc(); "prove {design}")?;
    let by_threads = answer_by_searches(rt, threads, line.as_str())?;
    let in_turn = answer_alone(rt, line.as_str(), &[])?;
    let is_same = by_threads.text == in_turn.text && by_threads.status == in_turn.status;
    let told = if is_same { "the same" } else { "different" };
    println!(rt; "{told}, status {}", in_turn.status)
}
