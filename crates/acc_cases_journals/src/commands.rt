//! Commands over a journal.
ghost use Rattle.std.specs.Prelude.{◌<◌, ◌^◌, length, IsTrue};
ghost use Rattle.acc_print.specs.Designs.{printed};

use crate::files::file;
use crate::recoveries::{fresh, push_counts};
use acc_base::designs::Design;
use acc_cases_words::words::{number, push_lines};
use acc_disk::MemDisk;
use acc_journalled::{Answer, Ended, Ending, Wanted, init_journal, recover_journal};
use acc_lift::Accepted;
use acc_print::print;
use acc_progress::Silent;
use std::alloc::{AllocError, Global};
use std::fmt::Write;

/// Whether a journal can have the design's text.
fn is_short(alloc: Global, design: &Design) -> bool
    ensures { IsTrue result → length (printed design.now) < 2 ^ 32 }
{
    match print(alloc, design) {
        Ok(text) => text.len() < 1 << 32,
        Err(_) => false,
    }
}

/// What making a journal answers, where its text can be the design's.
fn made(alloc: Global, design: &Design, disk: MemDisk) -> Option<Ended<MemDisk>> {
    if is_short(alloc, design) {
        Some(init_journal(alloc, design, disk))
    } else {
        None
    }
}

/// What a command answers of a disk, if there is one of that name.
fn ended(alloc: Global, design: &Accepted, name: &str, disk: MemDisk) -> Option<Ended<MemDisk>> {
    match name {
        "init" => made(alloc, design.design(), disk),
        "recover" => Some(recover_journal(alloc, design, Wanted::Counts, disk, &mut Silent)),
        "dump" => Some(recover_journal(alloc, design, Wanted::Rows, disk, &mut Silent)),
        "replies" => Some(recover_journal(alloc, design, Wanted::Replies, disk, &mut Silent)),
        _ => None,
    }
}

/// The word for how a command ended.
fn ending_word(ending: Ending) -> &'static str {
    match ending {
        Ending::Done => "done ",
        Ending::JournalRefused => "refused ",
        Ending::DiskFailed => "failed ",
        Ending::DesignRefused | Ending::ScriptRefused => "otherwise ",
        Ending::Unbegun | Ending::Open | Ending::ConditionFalse => "otherwise ",
    }
}

/// Pushes how a command ended, and its lines with ` / ` between two.
fn push_said(out: &mut String, answer: &Answer) -> Result<(), AllocError> {
    out.push_str(ending_word(answer.ending))?;
    push_lines(out, &answer.text)
}

/// Pushes what a command answered, how many events it tells and how many of them are durable, how many calls the disk has had, and what
/// recovery makes of its bytes.
fn push_ended(
    alloc: Global,
    out: &mut String,
    design: &Accepted,
    ended: &Ended<MemDisk>,
) -> Result<(), AllocError> {
    match &ended.answer {
        Ok(answer) => push_said(out, answer)?,
        Err(_) => out.push_str("memory")?,
    }
    write!(
        out,
        "; events {} settled {} calls {} | ",
        ended.history.len(),
        ended.settled,
        ended.disk.calls()
    )?;
    push_counts(alloc, out, design, ended.disk.bytes())
}

/// A disk with the bytes of a word, one of whose calls fails.
fn disk(alloc: Global, design: &Accepted, word: &str, fails: u64) -> Result<MemDisk, AllocError> {
    let bytes = file(alloc, design, word)?;
    fresh(alloc, &bytes, fails)
}

/// Pushes what the command of those words answers.
fn push_words(
    alloc: Global,
    out: &mut String,
    design: &Accepted,
    words: &[&str],
) -> Result<(), AllocError> {
    let [name, word, fails] = words else {
        return out.push_str("no command");
    };
    let disk = disk(alloc, design, word, number(fails))?;
    match ended(alloc, design, name, disk) {
        Some(ended) => push_ended(alloc, out, design, &ended),
        None => out.push_str("no command"),
    }
}

/// Pushes what a command answers of a disk with the bytes of a word, one of whose calls fails.
pub fn push_command(
    alloc: Global,
    out: &mut String,
    design: &Accepted,
    words: &str,
) -> Result<(), AllocError> {
    let words: Vec<&str> = words.split(' ').collect(alloc)?;
    push_words(alloc, out, design, words.as_slice())
}
