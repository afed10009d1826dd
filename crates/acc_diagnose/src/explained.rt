//! What is told of a command line that ended with another status than 0.
ghost use Rattle.acc_formed.specs.WellFormed.{IsWellFormed};

use crate::audits::push_audit;
use crate::behind::{NamesWanted, Second, asks_tables, second_of};
use crate::journals::{push_disk, push_full, push_journal};
use crate::obligations::{File, push_fault};
use crate::openings::push_unproved;
use crate::points::push_point;
use crate::statuses::{
    DESIGN, DISK, DONE, FILE, JOURNAL, MEMORY, OPEN, SCRIPT, SINK, UNBEGUN, USAGE,
};
use crate::usage::push_usage;
use crate::workloads::{push_other, push_verified};
use acc_base::designs::Design;
use acc_base::sequences::Seq;
use acc_commands_inputs::{Command, command_of, file_names};
use acc_diagnose_faults::{Diagnosed, Judged, diagnose, judge};
use acc_diagnose_spot::{order_spot, script_spot};
use acc_diagnose_words::{
    absent_text, begin_note, end_note, failed_text, line_at, memory_text, push_long, push_note,
    push_report, sink_text,
};
use acc_io::{LONGEST, Shelf, ShelfError};
use acc_page::Page;
use acc_script::{ScriptError, calls, order};
use std::alloc::{AllocError, Global};

/// Says why a file isn't given.
fn push_file(out: &mut Page, name: &str, error: ShelfError) {
    begin_note(out, name.as_bytes());
    match error {
        ShelfError::Failed => out.push(failed_text()),
        ShelfError::Absent => out.push(absent_text()),
        ShelfError::Long(_) => push_long(out, LONGEST),
        ShelfError::Memory => out.push(memory_text()),
    }
    end_note(out, b"")
}

/// A design without tables and types.
fn empty_text() -> &'static [u8] {
    b"the design is empty: it has neither tables nor types"
}

/// Where a design to begin with is found.
fn empty_hint() -> &'static [u8] {
    b"docs/DESIGN-LANGUAGE.md has a whole one to begin with; a line that begins with `#` is a comment"
}

/// Reads the files of these names; says of the first that isn't given why, and answers none then.
fn read_all<H: Shelf>(
    alloc: Global,
    out: &mut Page,
    names: &[String],
    shelf: &mut H,
) -> Result<Option<Vec<Vec<u8>>>, AllocError> {
    let mut files = Vec::new(alloc);
    for name in names {
        match shelf.read(alloc, name.as_str()) {
            Ok(file) => files.push(file)?,
            Err(error) => {
                push_file(out, name.as_str(), error);
                return Ok(None);
            }
        }
    }
    Ok(Some(files))
}

/// Says what is wrong with an order, if it is refused.
fn push_order(alloc: Global, out: &mut Page, places: u64, file: File) {
    match order(alloc, places, file.text) {
        Err(ScriptError::Line(line)) => {
            let spot = order_spot(alloc, places, line_at(file.text, line));
            push_report(out, file.name, file.text, line, &spot);
        }
        Ok(_) | Err(ScriptError::Memory) => {}
    }
}

/// Says what is wrong with a script, or else with its order, if there is one.
fn push_script(
    alloc: Global,
    out: &mut Page,
    design: &Design,
    script: File,
    orders: &[File],
) -> Result<(), AllocError> {
    match calls(alloc, design, script.text) {
        Ok(asked) => {
            if let [order, ..] = orders {
                push_order(alloc, out, asked.len() as u64, *order);
            }
        }
        Err(ScriptError::Line(line)) => {
            let spot = script_spot(alloc, design, line_at(script.text, line));
            push_report(out, script.name, script.text, line, &spot);
        }
        Err(ScriptError::Memory) => return Err(AllocError),
    }
    Ok(())
}

/// Says why a design isn't accepted with its certificate, or else what is wrong with the files behind that, if there are some; or what is
/// told of TPC-C's tables and conditions, where a command asks for these.
fn push_judged(
    alloc: Global,
    out: &mut Page,
    command: Command,
    d: Design,
    design: File,
    certificate: File,
    behind: &[File],
    printed: &[u8],
) -> Result<(), AllocError>
    requires { IsWellFormed d }
{
    match (judge(alloc, d, certificate.text)?, behind) {
        (Judged::Refused(d, fault), _) => push_fault(alloc, out, &d, design, certificate, &fault),
        (Judged::Accepted(d), [script, orders @ ..]) => {
            push_script(alloc, out, d.design(), *script, orders)
        }
        (Judged::Accepted(d), []) => {
            push_workload(alloc, out, command, d.design(), design, printed)
        }
    }
}

/// Says what is told of an accepted design with a workload, where a command asks for one.
fn push_workload(
    alloc: Global,
    out: &mut Page,
    command: Command,
    d: &Design,
    design: File,
    printed: &[u8],
) -> Result<(), AllocError> {
    match asks_tables(command) {
        NamesWanted::Tables(verb) => push_verified(alloc, out, d, design, verb, printed),
        NamesWanted::Booking => {
            push_other(out, design, printed);
            Ok(())
        }
        NamesWanted::None => Ok(()),
    }
}

/// Says why a word names no point that an entry may have, by the line that was printed of it; or else which obligations of a design stay
/// open, as it was printed.
fn push_alone(
    alloc: Global,
    out: &mut Page,
    d: &Design,
    design: File,
    printed: &[u8],
) -> Result<(), AllocError>
    requires { IsWellFormed d.now }
{
    match printed.strip_prefix(b"refused point ".as_slice()) {
        Some(word) => push_point(alloc, out, d, design, word.trim_ascii_end()),
        None => push_unproved(alloc, out, d, design, printed),
    }
}

/// Says what is wrong with the files behind a design that is well-formed; or, where there are none, which of its obligations stay open, as
/// it was printed; or which of TPC-C's conditions are false, or what an audit finds, likewise.
fn push_behind(
    alloc: Global,
    out: &mut Page,
    command: Command,
    d: Design,
    files: &[File],
    printed: &[u8],
) -> Result<(), AllocError>
    requires { IsWellFormed d }
{
    match (files, second_of(command)) {
        ([design, certificate, behind @ ..], Second::Certificate) => push_judged(
            alloc,
            out,
            command,
            d,
            *design,
            *certificate,
            behind,
            printed,
        ),
        ([design, certificate, ..], Second::CertificateOfJournal) => push_judged(
            alloc,
            out,
            command,
            d,
            *design,
            *certificate,
            &[],
            printed,
        ),
        ([design, journal, ..], Second::Journal) => {
            push_audit(alloc, out, &d, *design, *journal, printed)
        }
        ([_, script, orders @ ..], Second::Script) => {
            push_script(alloc, out, &d, *script, orders)
        }
        ([design, ..], Second::Certificate | Second::CertificateOfJournal | Second::Journal) => {
            push_alone(alloc, out, &d, *design, printed)
        }
        ([design, ..], Second::Script | Second::None) => {
            push_alone(alloc, out, &d, *design, printed)
        }
        ([], Second::Certificate | Second::CertificateOfJournal | Second::Journal) => Ok(()),
        ([], Second::Script | Second::None) => Ok(()),
    }
}

/// Says what is wrong with the files that a command line names: a design, then its certificate, where the command takes one, and
/// then a script and an order, where it takes these.
fn push_files(
    alloc: Global,
    out: &mut Page,
    command: Command,
    files: &[File],
    printed: &[u8],
) -> Result<(), AllocError> {
    let [design, ..] = files else {
        return Ok(());
    };
    match diagnose(alloc, design.text)? {
        Diagnosed::Read(d) => push_behind(alloc, out, command, d, files, printed),
        Diagnosed::Refused(d) => {
            push_report(out, design.name, design.text, d.line, &d.spot);
            Ok(())
        }
    }
}

/// The files with their names.
fn named<'a>(
    alloc: Global,
    names: &'a [String],
    texts: &'a [Vec<u8>],
) -> Result<Vec<File<'a>>, AllocError> {
    let mut files = Vec::new(alloc);
    for (name, text) in names.iter().zip(texts.iter()) {
        files.push(File {
            name: name.as_bytes(),
            text,
        })?;
    }
    Ok(files)
}

/// Says what is wrong with the files of these names, which are a command's.
fn push_names<H: Shelf>(
    alloc: Global,
    out: &mut Page,
    command: Command,
    names: &[String],
    shelf: &mut H,
    printed: &[u8],
) -> Result<(), AllocError> {
    match read_all(alloc, out, names, shelf)? {
        Some(texts) => {
            let files = named(alloc, names, &texts)?;
            push_files(alloc, out, command, &files, printed)
        }
        None => Ok(()),
    }
}

/// Says that a design is empty, if it is.
fn push_if_empty(out: &mut Page, name: &str, d: &Design) {
    if d.tables.is_empty() && d.types.is_empty() {
        push_note(out, name.as_bytes(), empty_text(), empty_hint());
    }
}

/// Says of a file that was printed as nothing that its design is empty, if it is.
fn push_nothing<H: Shelf>(
    alloc: Global,
    out: &mut Page,
    names: &[String],
    shelf: &mut H,
) -> Result<(), AllocError> {
    let [name, ..] = names else {
        return Ok(());
    };
    let Ok(text) = shelf.read(alloc, name.as_str()) else {
        return Ok(());
    };
    match diagnose(alloc, &text)? {
        Diagnosed::Read(d) => push_if_empty(out, name.as_str(), &d),
        Diagnosed::Refused(_) => {}
    }
    Ok(())
}

/// Says what is left out by a command that was answered.
fn push_done<H: Shelf>(
    alloc: Global,
    out: &mut Page,
    command: Command,
    names: &[String],
    shelf: &mut H,
    printed: &[u8],
) -> Result<(), AllocError> {
    match command {
        Command::Print if printed.is_empty() => push_nothing(alloc, out, names, shelf),
        Command::Prove => push_names(alloc, out, command, names, shelf, printed),
        Command::Print | Command::Play | Command::Rehearse | Command::Check => Ok(()),
        Command::Init | Command::Sched | Command::Run(_) => Ok(()),
        Command::Recover | Command::Dump | Command::Replies | Command::Verify => Ok(()),
        Command::Migrate | Command::Follow(_) => Ok(()),
        Command::TpccDesign | Command::TpccLoad(_) | Command::TpccMix(_) => Ok(()),
        Command::BookingDesign | Command::BookingVerify | Command::Advise(_) => Ok(()),
        Command::Draw | Command::Audit | Command::Bench(_) => Ok(()),
        Command::Help | Command::Version => Ok(()),
    }
}

/// Says why a command ended with this status, or what is left out where it was answered.
fn push_command<H: Shelf>(
    alloc: Global,
    out: &mut Page,
    status: u8,
    command: Command,
    names: &[String],
    shelf: &mut H,
    printed: &[u8],
) -> Result<(), AllocError> {
    match status {
        DONE => push_done(alloc, out, command, names, shelf, printed),
        DESIGN | SCRIPT | FILE | OPEN => push_names(alloc, out, command, names, shelf, printed),
        DISK => {
            push_disk(out, command);
            Ok(())
        }
        _ => Ok(()),
    }
}

/// Says why a command line ended with this status, or what is left out where it was answered.
fn push_status<H: Shelf>(
    alloc: Global,
    out: &mut Page,
    status: u8,
    words: &[String],
    shelf: &mut H,
    printed: &[u8],
    usage: &[u8],
) -> Result<(), AllocError> {
    match status {
        USAGE => push_usage(out, words, usage),
        JOURNAL => return push_journal(alloc, out, words, printed),
        SINK => push_note(out, b"acc", sink_text(), b""),
        UNBEGUN => push_full(out, words),
        MEMORY => push_note(out, b"acc", memory_text(), b""),
        _ => {
            if let Some(command) = command_of(words) {
                let names = file_names(words);
                return push_command(alloc, out, status, command, names, shelf, printed);
            }
        }
    }
    Ok(())
}

/// What is told of a command line that ended with this status: after 0 nothing but that a design is empty, or the columns of which a proved
/// one says nothing; and the front of it where memory runs out. The files are read anew, and what is told is of what is read then; of a
/// journal and of open obligations it is of what was printed. `usage` lists the commands.
pub fn explain<H: Shelf>(
    alloc: Global,
    status: u8,
    words: &[String],
    shelf: &mut H,
    printed: &[u8],
    usage: &[u8],
) -> Vec<u8> {
    let mut out = Page::new(alloc);
    match push_status(alloc, &mut out, status, words, shelf, printed, usage) {
        Ok(()) | Err(_) => out.into_bytes(),
    }
}
