//! Runs by worker threads.
ghost use Rattle.acc_crew.specs.Works.{IsUnworked};

use crate::answers::{Answered, answer, answer_alone};
use crate::calls::work_by_calls;
use crate::meetings::Meeting;
use crate::searches::tell_searches;
use acc_cases_commands::texts::first_word;
use acc_cases_commands::{InTurn, IndexStore, memory};
use acc_crew::Called;
use acc_disk::MemDisk;
use acc_engine::Engine;
use acc_lift::Accepted;
use acc_threads::work_in_threads;
use acc_workers::{Gate, OpenGate};
use std::alloc::{AllocError, Global};
use std::fs::File;
use std::io;
use std::rt::Files;
use std::sync::Wait;
use std::thread::Threads;

/// The numbers of the two that meet: before them come two of the script FIRST.
const MEET: (u64, u64) = (3, 4);

/// A run: how many work, the call of the disk from which on all fail, and the names of the files.
#[derive(Clone, Copy)]
struct CrewRun<'a> {
    workers: &'a str,
    from: &'a str,
    design: &'a str,
    certificate: &'a str,
    first: &'a str,
    script: &'a str,
}

/// The run that is written `WORKERS FROM DESIGN CERT FIRST SCRIPT`.
fn case_of(text: &str) -> CrewRun<'_> {
    let (workers, rest) = first_word(text);
    let (from, rest) = first_word(rest);
    let (design, rest) = first_word(rest);
    let (certificate, rest) = first_word(rest);
    let (first, script) = first_word(rest);
    CrewRun {
        workers,
        from,
        design,
        certificate,
        first,
        script,
    }
}

/// The journal with which a run begins.
fn journal_of<R: Files<File = File> + AllocGlobal>(
    rt: &R,
    case: CrewRun<'_>,
) -> Result<Vec<u8>, AllocError> {
    let CrewRun {
        design,
        certificate,
        first,
        ..
    } = case;
    let init = format!(in rt.alloc(); "init {design}")?;
    let made = answer_alone(rt, init.as_str(), &[])?;
    let run = format!(in rt.alloc(); "run {design} {certificate} {first} 1")?;
    let begun = answer_alone(rt, run.as_str(), made.disk.bytes())?;
    begun.disk.bytes().to_vec(rt.alloc())
}

/// Answers a command line over a disk by workers in threads, with a gate between their turns.
fn answer_in_threads<
    'd,
    R: Files<File = File> + AllocGlobal,
    T: Threads + Wait + Sync,
    G: Gate + Sync,
>(
    rt: &R,
    threads: &T,
    gate: &G,
    line: &str,
    disk: MemDisk,
    slot: &'d mut Option<Accepted>,
) -> Result<Answered, AllocError> {
    let crew = Called::new::<Engine<'d, IndexStore, MemDisk>>(
        |alloc, engine, workers|
            requires { IsUnworked engine }
        { work_in_threads(threads, alloc, engine, workers, gate) },
    );
    answer(rt, line, disk, &crew, &InTurn, slot)
}

/// The disk with which the run of a case begins.
fn disk_of<R: Files<File = File> + AllocGlobal>(
    rt: &R,
    case: CrewRun<'_>,
) -> Result<MemDisk, AllocError> {
    let journal = journal_of(rt, case)?;
    memory::disk(rt.alloc(), &journal, &[], case.from.parse().ok())
}

/// The command line of the run of a case.
fn line_of(alloc: Global, case: CrewRun<'_>) -> Result<String, AllocError> {
    let CrewRun {
        workers,
        design,
        certificate,
        script,
        ..
    } = case;
    format!(in alloc; "run {design} {certificate} {script} {workers}")
}

/// Answers the run of a case, with a gate between its turns.
fn run<R: Files<File = File> + AllocGlobal, T: Threads + Wait + Sync, G: Gate + Sync>(
    rt: &R,
    threads: &T,
    gate: &G,
    case: CrewRun<'_>,
) -> Result<Answered, AllocError> {
    let disk = disk_of(rt, case)?;
    let line = line_of(rt.alloc(), case)?;
    answer_in_threads(rt, threads, gate, line.as_str(), disk, &mut None)
}

/// Answers a command line over a disk by the calls of the shared engine, and tells what these answer.
fn answer_by_calls<'d, R: Files<File = File> + Print + AllocGlobal, W: Wait>(
    rt: &R,
    waits: &W,
    line: &str,
    disk: MemDisk,
    slot: &'d mut Option<Accepted>,
) -> Result<Answered, AllocError> {
    let crew = Called::new::<Engine<'d, IndexStore, MemDisk>>(
        |alloc, engine, _workers|
            requires { IsUnworked engine }
        { work_by_calls(rt, waits, alloc, engine) },
    );
    answer(rt, line, disk, &crew, &InTurn, slot)
}

/// Tells what a command line printed, and its status.
fn tell_answer<R: Print>(rt: &R, answered: &Answered) -> io::Result<()> {
    println!(rt; "{:?}, status {}", answered.text.as_str(), answered.status)
}

/// Tells what a command over the journal answers over the bytes that a run left.
fn tell_left<R: Files<File = File> + Print + AllocGlobal>(
    rt: &R,
    verb: &str,
    case: CrewRun<'_>,
    bytes: &[u8],
) -> io::Result<()> {
    let CrewRun {
        design,
        certificate,
        ..
    } = case;
    let line = format!(in rt.alloc(); "{verb} {design} {certificate}")?;
    let answered = answer_alone(rt, line.as_str(), bytes)?;
    tell_answer(rt, &answered)
}

/// Tells what a run answered, and of what it left.
fn tell_answered<R: Files<File = File> + Print + AllocGlobal>(
    rt: &R,
    case: CrewRun<'_>,
    answered: &Answered,
) -> io::Result<()> {
    tell_answer(rt, answered)?;
    tell_left(rt, "recover", case, answered.disk.bytes())?;
    tell_left(rt, "dump", case, answered.disk.bytes())
}

/// Tells of the run of a case by workers.
fn tell_run<R: Files<File = File> + Print + AllocGlobal, T: Threads + Wait + Sync>(
    rt: &R,
    threads: &T,
    case: CrewRun<'_>,
) -> io::Result<()> {
    let answered = run(rt, threads, &OpenGate, case)?;
    tell_answered(rt, case, &answered)
}

/// How many lines of what a run printed are replies: each begins with a place.
fn reply_count(text: &str) -> usize {
    text.lines()
        .filter(|line| line.starts_with(|c: char| c.is_ascii_digit()))
        .count()
}

/// Tells how many replies the run of a case by workers has and its status, and what `verify` answers over what it left.
fn tell_verified<R: Files<File = File> + Print + AllocGlobal, T: Threads + Wait + Sync>(
    rt: &R,
    threads: &T,
    case: CrewRun<'_>,
) -> io::Result<()> {
    let answered = run(rt, threads, &OpenGate, case)?;
    let replies = reply_count(answered.text.as_str());
    println!(rt; "{replies} replies, status {}", answered.status)?;
    tell_left(rt, "verify", case, answered.disk.bytes())
}

/// Tells of the run of a case by the calls of the shared engine.
fn tell_calls<R: Files<File = File> + Print + AllocGlobal, W: Wait>(
    rt: &R,
    waits: &W,
    case: CrewRun<'_>,
) -> io::Result<()> {
    let disk = disk_of(rt, case)?;
    let line = line_of(rt.alloc(), case)?;
    let answered = answer_by_calls(rt, waits, line.as_str(), disk, &mut None)?;
    tell_answered(rt, case, &answered)
}

/// Tells whether two transactions of the run of a case met between their steps.
fn tell_meeting<R: Files<File = File> + Print + AllocGlobal, T: Threads + Wait + Sync>(
    rt: &R,
    threads: &T,
    case: CrewRun<'_>,
) -> io::Result<()> {
    let meeting = Meeting::new(MEET.0, MEET.1);
    run(rt, threads, &meeting, case)?;
    rt.println(if meeting.took_place() {
        "interleaved"
    } else {
        "missed"
    })
}

/// Tells of what a line asks for.
pub fn tell<R: Files<File = File> + Print + AllocGlobal, T: Threads + Wait + Sync>(
    rt: &R,
    threads: &T,
    line: &str,
) -> io::Result<()> {
    let (verb, rest) = first_word(line);
    match verb {
        "searches" => tell_searches(rt, threads, rest),
        "interleaves" => tell_meeting(rt, threads, case_of(rest)),
        "shares" => tell_calls(rt, threads, case_of(rest)),
        "verifies" => tell_verified(rt, threads, case_of(rest)),
        _ => tell_run(rt, threads, case_of(rest)),
    }
}
