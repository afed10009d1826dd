//! What is shown of a design: its print, or how it is refused.
use crate::answers::tell_lines;
use acc_cases_changes::designs::{judged_text, spelled};
use acc_cases_commands::memory;
use acc_cases_commands::texts::{self, Exchange, first_word};
use acc_io::MemSink;
use std::alloc::{AllocError, Global};
use std::rt::Files;
use std::{fs, io};

/// Writes what the command `print` answers to the text, and tells its status.
fn write_print(alloc: Global, text: &str, out: &mut MemSink) -> Result<u8, AllocError> {
    let mut shelf = memory::shelf(alloc, text)?;
    let (status, _) = memory::answer(alloc, "print design", &mut shelf, out)?;
    Ok(status)
}

/// What the command `print` answers to the text, and its status.
fn printed(alloc: Global, text: &str) -> Result<String, AllocError> {
    let mut out = memory::sink(alloc, &[], &[])?;
    let status = write_print(alloc, text, &mut out)?;
    let text = String::from_utf8_lossy(alloc, out.bytes())?;
    format!(in alloc; "{text}status {status}\n")
}

/// What the verb shows of a design's text; the last line is a status.
fn shown(alloc: Global, verb: &str, text: &str) -> Result<String, AllocError> {
    match verb {
        "change" => printed(alloc, text),
        "spell" => spelled(alloc, text),
        "judge" => judged_text(alloc, text),
        _ => String::from_str(alloc, "no verb\n"),
    }
}

/// Shows a design.
fn show_whole<R: Print + AllocGlobal>(rt: &R, verb: &str, design: &str) -> io::Result<()> {
    let shown = shown(rt.alloc(), verb, design)?;
    tell_lines(rt, shown.as_str(), "")
}

/// Shows a changed design beside what is shown of the unchanged one.
fn show_beside<R: Print + AllocGlobal>(
    rt: &R,
    verb: &str,
    design: &str,
    changed: &str,
) -> io::Result<()> {
    let before = shown(rt.alloc(), verb, design)?;
    let shown = shown(rt.alloc(), verb, changed)?;
    tell_lines(rt, shown.as_str(), before.as_str())
}

/// Shows a changed design.
fn show_changed<R: Print + AllocGlobal>(
    rt: &R,
    verb: &str,
    design: &str,
    change: Exchange<'_>,
) -> io::Result<()> {
    match texts::changed(rt.alloc(), design, change)? {
        Some(changed) => show_beside(rt, verb, design, changed.as_str()),
        None => println!(rt; "not in the design"),
    }
}

/// `change`, `spell` or `judge`, with `DESIGN` or `DESIGN CHANGE`: what is shown of a design of the folder, or of the changed one.
pub fn show<R: Files + Print + AllocGlobal>(rt: &R, verb: &str, rest: &str) -> io::Result<()> {
    let (name, change) = first_word(rest);
    let design = fs::read_to_string(rt, name)?;
    match texts::change_of(change) {
        Some(change) => show_changed(rt, verb, design.as_str(), change),
        None => show_whole(rt, verb, design.as_str()),
    }
}
