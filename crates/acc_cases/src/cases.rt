//! The cases by their verbs.
use crate::kinds::{self, Kinds};
use acc_cases_answers::answers::{answer_at_once, answer_into};
use acc_cases_answers::designs::show;
use acc_cases_answers::faults::{shelf, sink};
use acc_cases_answers::folders::hold_files;
use acc_cases_answers::journals;
use acc_cases_answers::runs::{play_texts, sched_last, sched_texts};
use acc_cases_commands::texts::{self, first_word};
use acc_cases_commands::{memory, proofs};
use acc_cases_documents::documents;
use acc_cli::{InTurn, acc};
use acc_crew::Alone;
use acc_io::{FolderShelf, StdSink};
use acc_progress::Silent;
use std::fs::File;
use std::rt::Files;
use std::sync::Wait;
use std::thread::Threads;
use std::{fs, io};

/// `run WORDS`: a command line over the files of the folder, printed at once.
fn run<R: Files<File = File> + Print + AllocGlobal>(rt: &R, line: &str) -> io::Result<()> {
    let words = memory::words(rt.alloc(), line)?;
    let mut shelf = FolderShelf::new(rt);
    let mut out = StdSink::new(rt);
    let disk = memory::disk(rt.alloc(), &[], &[], None)?;
    let done = acc(
        rt.alloc(),
        &words,
        &mut shelf,
        &mut out,
        disk,
        &Alone,
        &InTurn,
        &mut None,
        &mut Silent,
    );
    println!(rt; "status {}", done.status)
}

/// `play DESIGN SCRIPT -> ORDER`: a play of a design of the folder, with the script and the order that stand there.
fn play<R: Files<File = File> + Print + AllocGlobal>(
    rt: &R,
    name: &str,
    rest: &str,
) -> io::Result<()> {
    let design = fs::read_to_string(rt, name)?;
    let (script, order) = rest.split_once(" -> ").unwrap_or((rest, ""));
    play_texts(rt, design.as_str(), script, order)
}

/// `sched DESIGN CERT SCRIPT -> ORDER`: a schedule over a design and a certificate of the folder, with the script and the order that
/// stand there.
fn sched<R: Files<File = File> + Print + AllocGlobal>(
    rt: &R,
    name: &str,
    rest: &str,
) -> io::Result<()> {
    let (certificate, rest) = first_word(rest);
    let design = fs::read_to_string(rt, name)?;
    let certificate = fs::read_to_string(rt, certificate)?;
    sched_texts(rt, design.as_str(), certificate.as_str(), rest)
}

/// `many DESIGN CERT COUNT LINE`: a schedule over a design and a certificate of the folder, with so many lines for a script and no order;
/// its last two lines.
fn many<R: Files<File = File> + Print + AllocGlobal>(
    rt: &R,
    name: &str,
    rest: &str,
) -> io::Result<()> {
    let (certificate, rest) = first_word(rest);
    let (count, line) = first_word(rest);
    let design = fs::read_to_string(rt, name)?;
    let certificate = fs::read_to_string(rt, certificate)?;
    let script = texts::pieces(rt.alloc(), line, count.parse().unwrap_or(0))?;
    sched_last(rt, design.as_str(), certificate.as_str(), script.as_str())
}

/// `print TEXT`: what the command `print` answers to a text.
fn print<R: Print + AllocGlobal>(rt: &R, text: &str) -> io::Result<()> {
    let mut shelf = memory::shelf(rt.alloc(), text)?;
    answer_at_once(rt, "print design", &mut shelf)
}

/// `check TEXT -> CERTIFICATE`: what the command `check` answers to a design's text and a certificate.
fn check<R: Print + AllocGlobal>(rt: &R, text: &str) -> io::Result<()> {
    let (design, certificate) = text.split_once(" -> ").unwrap_or((text, ""));
    let mut shelf = memory::certified_shelf(rt.alloc(), design, certificate)?;
    answer_at_once(rt, "check design certificate", &mut shelf)
}

/// `prove TEXT`: what the command `prove` answers to a text.
fn prove<R: Print + AllocGlobal>(rt: &R, text: &str) -> io::Result<()> {
    let mut shelf = memory::shelf(rt.alloc(), text)?;
    answer_at_once(rt, "prove design", &mut shelf)
}

/// `proved DESIGN`: what `check` says of a design of the folder with the certificate that `prove` makes of it, or which obligations stay
/// open.
fn proved<R: Files<File = File> + Print + AllocGlobal>(rt: &R, name: &str) -> io::Result<()> {
    let design = fs::read_to_string(rt, name)?;
    proofs::tell(rt, design.as_str())
}

/// `kept DESIGN CERT`: whether the certificate of the folder is the one that `prove` makes of the design.
fn kept<R: Files<File = File> + Print + AllocGlobal>(
    rt: &R,
    name: &str,
    certificate: &str,
) -> io::Result<()> {
    let design = fs::read_to_string(rt, name)?;
    let certificate = fs::read_to_string(rt, certificate)?;
    proofs::compare(rt, design.as_str(), certificate.as_str())
}

/// `fails ABSENT READS WRITES TAKES WORDS`: a command line over a shelf in memory that lacks a file and some of whose reads
/// fail, and over a sink in memory some of whose writes fail or take less.
fn fails<R: Files<File = File> + Print + AllocGlobal>(rt: &R, text: &str) -> io::Result<()> {
    let (absent, rest) = first_word(text);
    let (reads, rest) = first_word(rest);
    let (writes, rest) = first_word(rest);
    let (takes, words) = first_word(rest);
    let mut shelf = shelf(rt.alloc(), reads)?;
    hold_files(rt, &mut shelf, words, absent)?;
    let mut out = sink(rt.alloc(), writes, takes)?;
    answer_into(rt, words, &mut shelf, &mut out)
}

/// Answers a case of a design of the folder.
fn answer_design<R: Files<File = File> + Print + AllocGlobal>(
    rt: &R,
    verb: &str,
    rest: &str,
) -> io::Result<()> {
    let (name, behind) = first_word(rest);
    match verb {
        "play" => play(rt, name, behind),
        "sched" => sched(rt, name, behind),
        "many" => many(rt, name, behind),
        "proved" => proved(rt, name),
        "kept" => kept(rt, name, behind),
        _ => show(rt, verb, rest),
    }
}

/// Answers a case of a command line or of texts, or another of a design.
fn answer_words<R: Files<File = File> + Print + AllocGlobal>(
    rt: &R,
    verb: &str,
    rest: &str,
) -> io::Result<()> {
    match verb {
        "run" => run(rt, rest),
        "print" => print(rt, rest),
        "check" => check(rt, rest),
        "prove" => prove(rt, rest),
        "fails" => fails(rt, rest),
        "disk" => journals::over_disk(rt, rest),
        "twice" => journals::twice(rt, rest),
        "chain" => journals::chain(rt, rest),
        "alike" => journals::alike(rt, rest),
        _ => answer_design(rt, verb, rest),
    }
}

/// Answers a case without escapes.
fn answer_plain<R: Files<File = File> + Print + AllocGlobal>(
    rt: &R,
    base: &mut String,
    line: &str,
) -> io::Result<()> {
    let (verb, rest) = first_word(line);
    match verb {
        "" | "#" => Ok(()),
        "document" => documents::tell(rt, rest),
        "explain" => acc_cases_explanations::tell(rt, base, rest),
        _ => answer_words(rt, verb, rest),
    }
}

/// Prints a case of a command line or of the parts of one, and answers it. One of what is told may give the design of those behind it.
fn answer_command<R: Files<File = File> + Print + AllocGlobal>(
    rt: &R,
    base: &mut String,
    line: &str,
) -> io::Result<()> {
    rt.println(line)?;
    let line = texts::with_feeds(rt.alloc(), line)?;
    answer_plain(rt, base, line.as_str())
}

/// Prints a case by threads, and what it answers.
fn answer_in_threads<R: Files<File = File> + Print + AllocGlobal, T: Threads + Wait + Sync>(
    rt: &R,
    threads: &T,
    line: &str,
) -> io::Result<()> {
    rt.println(line)?;
    acc_cases_threads::tell(rt, threads, line)
}

/// Prints a case, and what it answers.
pub fn answer<R: Files<File = File> + Print + AllocGlobal, T: Threads + Wait + Sync>(
    rt: &R,
    threads: &T,
    kinds: &mut Kinds,
    line: &str,
) -> io::Result<()> {
    match first_word(line).0 {
        "threads" | "interleaves" | "shares" | "searches" | "verifies" => {
            answer_in_threads(rt, threads, line)
        },
        "device" | "journal" | "relation" | "workload" => kinds::tell(rt, kinds, line),
        "machine" | "text" | "search" => kinds::tell_or_take(rt, kinds, line),
        "state" | "engine" | "replica" => kinds::tell_or_accept(rt, kinds, line),
        "design" => kinds::tell_lines(rt, line),
        _ => answer_command(rt, &mut kinds.explained, line),
    }
}
