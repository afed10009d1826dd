//! The program: makes the real shelf, sink and disk, answers the command line, and tells on standard error why one is refused.
#![tactic(auto)]

ghost use Rattle.acc_search_threads.specs.WellFormed.{IsWellFormed};
ghost use Rattle.acc_threads.specs.Works.{IsUnworked};

mod journal;
mod streams;
mod terminal;
mod work;

use crate::journal::{is_let_alone, journal_disk, take_journal, trouble_line, unlocked_line};
use crate::streams::{hold_streams, tell_line, write_error};
use crate::terminal::TerminalProgress;
use crate::work::TerminalGate;
use acc_cli::{IndexStore, acc, help_text};
use acc_commands_inputs::{Command, command_of, file_names};
use acc_diagnose::statuses::{DISK, FILE, JOURNAL, MEMORY, SINK};
use acc_diagnose::{Keeping, cut_line, explain, read_name, room_line, system_reason};
use acc_disk::{Disk, FileDisk, MemDisk};
use acc_io::{FolderShelf, StdSink};
use acc_lift::Accepted;
use acc_search_threads::{InTurn, Searchers, Searching, at_once, search_in_threads};
use acc_threads::{Alone, Called, Crew, Engine, work_in_threads};
use std::alloc::AllocError;
use std::io::ErrorKind;
use std::process::ExitCode;
use std::sync::Wait;
use std::thread::Threads;
use std::{env, io};

/// How a command line ended: the status, the disk that was handed in, how many events the history has that is told, and what was printed.
#[derive(Drop)]
struct CommandEnd<'a, D> {
    status: u8,
    disk: D,
    events: usize,
    out: Keeping<StdSink<'a, HostRuntime>>,
}

/// The words behind the program's name.
fn words(rt: &HostRuntime) -> io::Result<Vec<String>> {
    let words = env::args(rt)?.skip(1).collect(rt.alloc())?;
    Ok(words)
}

/// Tells on standard error why a command line ended with a status that isn't 0, or what a design leaves out. What fails here changes
/// nothing else.
fn tell(rt: &HostRuntime, status: u8, words: &[String], printed: &[u8]) {
    let usage = match help_text(rt.alloc()) {
        Ok(usage) => usage,
        Err(_) => Vec::new(rt.alloc()),
    };
    let mut shelf = FolderShelf::new(rt);
    let told = explain(rt.alloc(), status, words, &mut shelf, printed, &usage);
    write_error(rt, &told);
    if status == FILE {
        tell_reason(rt, words);
    }
}

/// Tells on standard error the system's reason why a file isn't given, if it has one.
fn tell_reason(rt: &HostRuntime, words: &[String]) {
    if let Ok(reason) = system_reason(rt, rt.alloc(), file_names(words)) {
        write_error(rt, reason.as_bytes());
    }
}

/// Writes a line to standard error, if there is one, and memory lasted to make it.
fn tell_if_any(rt: &HostRuntime, line: Result<Option<String>, AllocError>) {
    if let Ok(Some(line)) = line {
        tell_line(rt, Ok(line));
    }
}

/// Answers a command line over a disk by a crew and by searchers; what was printed is kept, and the disk handed back.
fn answer<'a, 'd, D: Disk, C: Crew<Engine<'d, IndexStore, D>>, S: Searchers>(
    rt: &'a HostRuntime,
    words: &[String],
    disk: D,
    crew: &C,
    searchers: &S,
    slot: &'d mut Option<Accepted>,
) -> CommandEnd<'a, D>
    requires ready { C.ready crew.now }
    requires searching { S.ready searchers.now }
{
    let mut shelf = FolderShelf::new(rt);
    let mut out = Keeping::new(rt.alloc(), StdSink::new(rt));
    let mut progress = TerminalProgress::new(rt);
    let done = acc(
        rt.alloc(),
        words,
        &mut shelf,
        &mut out,
        disk,
        crew,
        searchers,
        slot,
        &mut progress,
    );
    progress.end_line();
    progress.tell_speed(done.history.len());
    CommandEnd {
        status: done.status,
        disk: done.disk,
        events: done.history.len(),
        out,
    }
}

/// Answers a command line over the journal's file by workers in threads, of which a terminal is told meanwhile.
fn answer_in_threads<'a, 'd, R: Threads + Wait + Sync>(
    rt: &'a HostRuntime,
    threads: &R,
    words: &[String],
    disk: FileDisk<'a, HostRuntime>,
    slot: &'d mut Option<Accepted>,
) -> CommandEnd<'a, FileDisk<'a, HostRuntime>> {
    let crew = Called::new::<Engine<'d, IndexStore, FileDisk<'a, HostRuntime>>>(
        |alloc, engine, workers|
            requires { IsUnworked engine }
        {
            let gate = TerminalGate::new(rt);
            let engine = work_in_threads(threads, alloc, engine, workers, &gate);
            gate.end_line();
            engine
        },
    );
    answer(rt, words, disk, &crew, &InTurn, slot)
}

/// Whether workers do the command of these words.
fn is_by_crew(words: &[String]) -> bool {
    match command_of(words) {
        Some(Command::Run(_)) => true,
        Some(Command::Init | Command::Sched | Command::Migrate) => false,
        Some(Command::Recover | Command::Dump | Command::Replies | Command::Verify) => false,
        Some(Command::Play | Command::Rehearse | Command::Print | Command::Draw) => false,
        Some(Command::Check | Command::Prove | Command::Audit | Command::Bench(_)) => false,
        Some(Command::TpccDesign | Command::TpccLoad(_) | Command::TpccMix(_)) => false,
        Some(Command::BookingDesign | Command::BookingVerify | Command::Advise(_)) => false,
        Some(Command::Follow(_) | Command::Help | Command::Version) | None => false,
    }
}

/// Answers a command line over the journal's file: `run` by threads, and any other command that has a journal without, so that it waits for
/// nobody. None of them searches for a proof.
fn answer_by_crew<'a, R: Threads + Wait + Sync>(
    rt: &'a HostRuntime,
    threads: &R,
    words: &[String],
    disk: FileDisk<'a, HostRuntime>,
) -> CommandEnd<'a, FileDisk<'a, HostRuntime>> {
    let mut slot = None;
    if is_by_crew(words) {
        answer_in_threads(rt, threads, words, disk, &mut slot)
    } else {
        answer(rt, words, disk, &Alone, &InTurn, &mut slot)
    }
}

/// Answers a command line over the journal's file, and tells on standard error why, where it isn't answered with status 0.
fn answer_over<R: Threads + Wait + Sync>(
    rt: &HostRuntime,
    threads: &R,
    words: &[String],
    path: String,
) -> Result<u8, AllocError> {
    let disk = journal_disk(rt, words, path.clone()?);
    let CommandEnd {
        status,
        disk,
        events,
        out,
    } = answer_by_crew(rt, threads, words, disk);
    if disk.is_unlocked() {
        tell_line(rt, unlocked_line(rt.alloc(), path.as_str()));
    }
    match disk.trouble() {
        Some(trouble) if status == DISK => {
            if !is_let_alone(trouble) {
                tell(rt, status, words, out.kept());
            }
            tell_line(rt, trouble_line(rt.alloc(), path.as_str(), trouble));
        }
        _ => tell(rt, status, words, out.kept()),
    }
    if status == JOURNAL {
        let refused = read_name(words, "").unwrap_or(path.as_str());
        tell_if_any(rt, cut_line(rt.alloc(), refused, out.kept()));
    }
    tell_if_any(rt, room_line(rt.alloc(), path.as_str(), events));
    Ok(status)
}

/// Answers a command line without a journal, where the searches for proofs run in threads; and tells on standard error why, where it isn't
/// answered with status 0.
fn answer_without<R: Threads + Sync>(
    rt: &HostRuntime,
    threads: &R,
    words: &[String],
) -> Result<u8, AllocError> {
    let Ok(disk) = MemDisk::new(rt.alloc(), &[], &[], None) else {
        return Err(AllocError);
    };
    let searchers = Searching::new(
        at_once(threads),
        |alloc, d, sequents|
            requires { IsWellFormed d.now }
        { search_in_threads(threads, alloc, d, sequents) },
    );
    let CommandEnd { status, out, .. } = answer(rt, words, disk, &Alone, &searchers, &mut None);
    tell(rt, status, words, out.kept());
    Ok(status)
}

/// Answers the command line, and gives the status.
fn run<R: Threads + Wait + Sync>(rt: &HostRuntime, threads: &R, words: &mut Vec<String>) -> u8 {
    let answered = match take_journal(words) {
        Some(path) => answer_over(rt, threads, words, path),
        None => answer_without(rt, threads, words),
    };
    match answered {
        Ok(status) => status,
        Err(AllocError) => {
            tell(rt, MEMORY, words, &[]);
            MEMORY
        }
    }
}

fn main(rt: HostRuntime) -> ExitCode {
    let Ok(_streams) = hold_streams(&rt) else {
        return ExitCode::from(SINK);
    };
    let mut words = match words(&rt) {
        Ok(words) => words,
        Err(error) if error.kind() == ErrorKind::OutOfMemory => return ExitCode::from(MEMORY),
        // A word that is no text is no form of words.
        Err(_) => Vec::new(rt.alloc()),
    };
    ExitCode::from(run(&rt, &rt, &mut words))
}
