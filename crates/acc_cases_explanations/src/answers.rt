//! The cases by their verbs.
use crate::commands::{SCRIPT, check, journal, play, run};
use crate::journals::{cut, room};
use crate::progress::{found, replay, work};
use acc_cases_commands::memory;
use acc_cases_commands::texts::{self, first_word};
use acc_diagnose::system_reason;
use std::alloc::{AllocError, Global};
use std::fs::File;
use std::rt::Files;
use std::{fs, io};

/// The numbers of the calls that fail: none, the first, the first two.
const NONE: &[u64] = &[];

const FIRST: &[u64] = &[1];

const FIRST_TWO: &[u64] = &[1, 2];

/// The design changed as `OLD -> NEW` or `OLD -> NEW -> COUNT PIECE` says, where its piece is there.
fn changed(alloc: Global, design: &str, change: &str) -> Result<Option<String>, AllocError> {
    match texts::change_of(change) {
        Some(change) => texts::changed(alloc, design, change),
        None => Ok(None),
    }
}

/// Prints a changed design.
fn design(alloc: Global, base: &str, change: &str) -> Result<String, AllocError> {
    match changed(alloc, base, change)? {
        Some(changed) => run(alloc, changed.as_str(), "print design", NONE, NONE),
        None => run(alloc, "no such piece", "print design", NONE, NONE),
    }
}

/// What a case of a command line answers.
fn answer_line(alloc: Global, base: &str, verb: &str, rest: &str) -> Result<String, AllocError> {
    match verb {
        "run" => run(alloc, base, rest, NONE, NONE),
        "unread" => run(alloc, base, rest, FIRST_TWO, NONE),
        "fails" => run(alloc, base, rest, NONE, FIRST),
        "journal" => journal(alloc, base, rest, None),
        "broken" => journal(alloc, base, rest, Some(1)),
        _ => String::from_str(alloc, "no such case\n"),
    }
}

/// What a case answers.
fn answer(alloc: Global, base: &str, verb: &str, rest: &str) -> Result<String, AllocError> {
    match verb {
        "design" => design(alloc, base, rest),
        "script" => play(alloc, base, rest, ""),
        "order" => play(alloc, base, SCRIPT, rest),
        "certificate" => check(alloc, base, rest),
        "replay" => replay(alloc, rest),
        "found" => found(alloc, rest),
        "work" => work(alloc, rest),
        "room" => room(alloc, rest),
        "cut" => cut(alloc, rest),
        _ => answer_line(alloc, base, verb, rest),
    }
}

/// Tells why the system doesn't give a file of these names in the program's folder.
fn tell_reason<R: Files + Print + AllocGlobal>(rt: &R, names: &str) -> io::Result<()> {
    let names = memory::words(rt.alloc(), names)?;
    let reason = system_reason(rt, rt.alloc(), &names)?;
    print!(rt; "{reason}")
}

/// Tells what a case answers.
fn tell_answer<R: Print + AllocGlobal>(
    rt: &R,
    base: &str,
    verb: &str,
    rest: &str,
) -> io::Result<()> {
    let answer = answer(rt.alloc(), base, verb, rest)?;
    print!(rt; "{answer}")
}

/// Takes a design.
fn take(base: &mut String, design: &str) -> Result<(), AllocError> {
    base.clear();
    base.push_str(design)
}

/// Takes a design of the program's folder.
fn take_file<R: Files<File = File> + AllocGlobal>(
    rt: &R,
    base: &mut String,
    name: &str,
) -> io::Result<()> {
    let design = fs::read_to_string(rt, name)?;
    Ok(take(base, design.as_str())?)
}

/// Tells the answer of a case without escapes.
fn tell_case<R: Files<File = File> + Print + AllocGlobal>(
    rt: &R,
    base: &mut String,
    line: &str,
) -> io::Result<()> {
    let (verb, rest) = first_word(line);
    match verb {
        "base" => Ok(take(base, rest)?),
        "file" => take_file(rt, base, rest),
        "reason" => tell_reason(rt, rest),
        _ => tell_answer(rt, base, verb, rest),
    }
}

/// Tells the answer of a case over that design, or takes another.
pub fn tell<R: Files<File = File> + Print + AllocGlobal>(
    rt: &R,
    base: &mut String,
    line: &str,
) -> io::Result<()> {
    let line = line.replace(rt.alloc(), "\\t", "\t")?;
    tell_case(rt, base, line.as_str())
}
