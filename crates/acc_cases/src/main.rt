//! Plays cases, one a line of the input: prints the line, and what it answers. `docs/TESTING.md` tells of the kinds of cases.
#![tactic(auto)]

mod cases;
mod kinds;

use crate::kinds::Kinds;
use std::fs::File;
use std::io;
use std::rt::Files;
use std::sync::Wait;
use std::thread::Threads;

/// Plays a line.
fn play<R: Files<File = File> + Print + AllocGlobal, T: Threads + Wait + Sync>(
    rt: &R,
    threads: &T,
    kinds: &mut Kinds,
    line: io::Result<String>,
) -> io::Result<()> {
    let line = line?;
    cases::answer(rt, threads, kinds, &line)
}

/// Plays each line of the input.
fn play_all<R: Input + Files<File = File> + Print + AllocGlobal, T: Threads + Wait + Sync>(
    rt: &R,
    threads: &T,
    kinds: &mut Kinds,
) -> io::Result<()> {
    for line in rt.lines(rt.alloc()) {
        play(rt, threads, kinds, line)?;
    }
    Ok(())
}

fn main(rt: HostRuntime) -> io::Result<()> {
    let mut kinds = Kinds::new(&rt)?;
    play_all(&rt, &rt, &mut kinds)
}
