//! What the program answers to commands and to texts.
use crate::journals::Journals;
use acc_cases_commands::{InTurn, acc, asks_journal, memory};
use acc_crew::Alone;
use acc_disk::MemDisk;
use acc_io::{FolderShelf, Shelf};
use acc_progress::Silent;
use std::alloc::{AllocError, Global};
use std::rt::Files;

/// What is printed of words over a shelf and a disk, and the disk that is handed back.
fn answer_words<H: Shelf>(
    alloc: Global,
    words: &[String],
    shelf: &mut H,
    disk: MemDisk,
) -> Result<(String, MemDisk), AllocError> {
    let mut out = memory::sink(alloc, &[], &[])?;
    let done = acc(
        alloc,
        words,
        shelf,
        &mut out,
        disk,
        &Alone,
        &InTurn,
        &mut None,
        &mut Silent,
    );
    Ok((String::from_utf8_lossy(alloc, out.bytes())?, done.disk))
}

/// What is printed of a command line over a shelf, and no journal.
fn answer_over<H: Shelf>(alloc: Global, line: &str, shelf: &mut H) -> Result<String, AllocError> {
    let words = memory::words(alloc, line)?;
    let disk = memory::disk(alloc, &[], &[], None)?;
    let (text, _) = answer_words(alloc, &words, shelf, disk)?;
    Ok(text)
}

/// What is printed of words over a shelf and the journal of that name, which holds afterwards what the command left.
fn answer_journal<H: Shelf>(
    alloc: Global,
    words: &[String],
    shelf: &mut H,
    journals: &mut Journals,
    name: &str,
) -> Result<String, AllocError> {
    let bytes = journals.bytes(alloc, name)?;
    let disk = memory::disk(alloc, &bytes, &[], None)?;
    let (text, disk) = answer_words(alloc, words, shelf, disk)?;
    journals.hold(alloc, name, disk.bytes())?;
    Ok(text)
}

/// What is printed of a command line over the files of the folder, and the journal that it names, if it asks for one.
pub fn answer<R: Files + AllocGlobal>(
    rt: &R,
    journals: &mut Journals,
    line: &str,
) -> Result<String, AllocError> {
    let mut shelf = FolderShelf::new(rt);
    let words = memory::words(rt.alloc(), line)?;
    match words.as_slice() {
        [front @ .., name] if asks_journal(&words) => {
            answer_journal(rt.alloc(), front, &mut shelf, journals, name.as_str())
        }
        _ => answer_over(rt.alloc(), line, &mut shelf),
    }
}

/// What `print` answers to the text of a design.
pub fn print(alloc: Global, design: &str) -> Result<String, AllocError> {
    let mut shelf = memory::shelf(alloc, design)?;
    answer_over(alloc, "print design", &mut shelf)
}

/// What `play` answers to the texts of a design, a script and an order.
pub fn play(alloc: Global, design: &str, script: &str, order: &str) -> Result<String, AllocError> {
    let mut shelf = memory::shelf(alloc, design)?;
    memory::hold_run(&mut shelf, script, order)?;
    answer_over(alloc, "play design script order", &mut shelf)
}
