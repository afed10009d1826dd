//! Command lines over a disk in memory.
use crate::faults::sink;
use crate::folders::hold_files;
use acc_cases_commands::disks::{base, disk, file, spelled_behind};
use acc_cases_commands::texts::first_word;
use acc_cases_commands::{Done, memory};
use acc_disk::MemDisk;
use acc_io::{MemShelf, MemSink};
use std::alloc::{AllocError, Global};
use std::io;
use std::rt::Files;

/// Tells what was written, how the program ended, and what the disk holds after how many calls, and how many syncs among them.
fn tell<R: Print + AllocGlobal>(
    rt: &R,
    base: &[u8],
    done: &Done<MemDisk>,
    written: &[u8],
) -> io::Result<()> {
    let text = String::from_utf8_lossy(rt.alloc(), written)?;
    println!(rt; "{:?}", text.as_str())?;
    println!(rt;
        "status {}, {} events, {} settled",
        done.status,
        done.history.len(),
        done.settled
    )?;
    let held = spelled_behind(rt.alloc(), base, done.disk.bytes())?;
    println!(rt;
        "{held}, {} calls, {} syncs",
        done.disk.calls(),
        done.disk.synced()
    )
}

/// Answers a command line over a disk, tells how it ended, and hands the disk back.
fn answer<R: Print + AllocGlobal>(
    rt: &R,
    base: &[u8],
    words: &str,
    shelf: &mut MemShelf,
    out: &mut MemSink,
    disk: MemDisk,
) -> io::Result<MemDisk> {
    let done = memory::answer_over(rt.alloc(), words, shelf, out, disk)?;
    tell(rt, base, &done, out.bytes())?;
    Ok(done.disk)
}

/// A disk's bytes, the calls of it that fail, the one from which on all fail, the writes of the sink that fail and, behind a `/`, how many
/// bytes the others take; and the command line.
#[derive(Clone, Copy)]
struct DiskCase<'a> {
    bytes: &'a str,
    fails: &'a str,
    from: &'a str,
    writes: &'a str,
    words: &'a str,
}

/// The case that is written `BYTES FAILS FROM WRITES WORDS`.
fn case_of(text: &str) -> DiskCase<'_> {
    let (bytes, rest) = first_word(text);
    let (fails, rest) = first_word(rest);
    let (from, rest) = first_word(rest);
    let (writes, words) = first_word(rest);
    DiskCase {
        bytes,
        fails,
        from,
        writes,
        words,
    }
}

/// A shelf with the folder's files that the words name.
fn shelf_of<R: Files + AllocGlobal>(rt: &R, words: &str) -> Result<MemShelf, AllocError> {
    let mut shelf = memory::empty_shelf(rt.alloc(), &[])?;
    hold_files(rt, &mut shelf, words, "-")?;
    Ok(shelf)
}

/// The name under which the bytes of a case's disk stand on its shelf too.
const COPY: &str = "journal";

/// The disk of a case, whose bytes stand behind a base. A copy of them stands on the shelf.
fn disk_of(
    alloc: Global,
    base: &[u8],
    case: DiskCase<'_>,
    shelf: &mut MemShelf,
) -> Result<MemDisk, AllocError> {
    let file = file(alloc, base, case.bytes)?;
    memory::hold(shelf, COPY, &file)?;
    disk(alloc, &file, case.fails, case.from)
}

/// Answers a case over a shelf.
fn over_shelf<R: Print + AllocGlobal>(
    rt: &R,
    case: DiskCase<'_>,
    shelf: &mut MemShelf,
) -> io::Result<()> {
    let (fails, takes) = case.writes.split_once('/').unwrap_or((case.writes, "-"));
    let mut out = sink(rt.alloc(), fails, takes)?;
    let base = base(rt.alloc(), shelf, case.bytes, case.words)?;
    let disk = disk_of(rt.alloc(), &base, case, shelf)?;
    answer(rt, &base, case.words, shelf, &mut out, disk)?;
    Ok(())
}

/// `disk BYTES FAILS FROM WRITES WORDS`: a command line over the folder's files, a disk in memory and a sink some of whose writes fail.
/// Behind a `+` the bytes stand in the place of the last byte of the journal that `init` makes of the design. WRITES may be `FAILS/TAKES`,
/// as those of `fails`. A copy of the disk's bytes is the file `journal`.
pub fn over_disk<R: Files + Print + AllocGlobal>(rt: &R, text: &str) -> io::Result<()> {
    let case = case_of(text);
    let mut shelf = shelf_of(rt, case.words)?;
    over_shelf(rt, case, &mut shelf)
}

/// Answers a command line twice, the second time over the disk that the first hands back.
fn answer_twice<R: Print + AllocGlobal>(
    rt: &R,
    words: &str,
    shelf: &mut MemShelf,
    out: &mut MemSink,
) -> io::Result<()> {
    let disk = disk(rt.alloc(), &[], "-", "-")?;
    let disk = answer(rt, &[], words, shelf, out, disk)?;
    answer(rt, &[], words, shelf, out, disk)?;
    Ok(())
}

/// `twice WORDS`: a command line over the folder's files and an empty disk in memory, and again over the disk that it hands back.
pub fn twice<R: Files + Print + AllocGlobal>(rt: &R, words: &str) -> io::Result<()> {
    let mut shelf = shelf_of(rt, words)?;
    let mut out = sink(rt.alloc(), "-", "-")?;
    answer_twice(rt, words, &mut shelf, &mut out)
}

/// The bytes that a disk holds; or, where a text is `CALLS/PICK`, those that a crash behind so many of its calls leaves, picked by that
/// number.
fn left(alloc: Global, disk: &MemDisk, text: &str) -> Result<Vec<u8>, AllocError> {
    let (calls, pick) = text.split_once('/').unwrap_or(("", ""));
    let Ok(calls) = calls.parse::<u64>() else {
        return disk.bytes().to_vec(alloc);
    };
    if calls > disk.calls() {
        return Err(AllocError);
    }
    let pick = pick.parse().unwrap_or(0);
    disk.image(calls, pick).map_err(|_| AllocError)
}

/// Answers a command line over a disk that holds these bytes, of which a copy stands on the shelf, prints what it wrote and its status, and
/// hands out the bytes that it left.
fn answer_behind<R: Print + AllocGlobal>(
    rt: &R,
    shelf: &mut MemShelf,
    words: &str,
    bytes: &[u8],
    from: &str,
) -> io::Result<Vec<u8>> {
    memory::hold(shelf, COPY, bytes)?;
    let disk = disk(rt.alloc(), bytes, "-", from)?;
    let mut out = sink(rt.alloc(), "-", "-")?;
    let done = memory::answer_over(rt.alloc(), words, shelf, &mut out, disk)?;
    let text = String::from_utf8_lossy(rt.alloc(), out.bytes())?;
    println!(rt; "{}status {}", text.as_str(), done.status)?;
    Ok(left(rt.alloc(), &done.disk, from)?)
}

/// `chain AT FROM WORDS ; WORDS ..`: command lines over the folder's files, each over the bytes that the one before it left on a disk in
/// memory, the first over an empty one. Of the line with the number AT, the calls of the disk from the number FROM on fail; a `-` is none.
/// Where FROM is `CALLS/PICK`, that line leaves what a crash behind so many calls leaves, picked by that number. A copy of the bytes that
/// stand before a line is the file `journal`.
pub fn chain<R: Files + Print + AllocGlobal>(rt: &R, text: &str) -> io::Result<()> {
    let (at, rest) = first_word(text);
    let (from, lines) = first_word(rest);
    let mut shelf = shelf_of(rt, lines)?;
    let mut bytes = Vec::new(rt.alloc());
    let mut number = 0u64;
    for words in lines.split(" ; ") {
        number = number.saturating_add(1);
        let from = if at.parse() == Ok(number) { from } else { "-" };
        bytes = answer_behind(rt, &mut shelf, words, &bytes, from)?;
    }
    Ok(())
}

/// What a command line writes over an empty disk in memory, and its status.
fn written(alloc: Global, shelf: &mut MemShelf, words: &str) -> Result<(Vec<u8>, u8), AllocError> {
    let mut out = sink(alloc, "-", "-")?;
    let done = memory::answer_over(alloc, words, shelf, &mut out, disk(alloc, &[], "-", "-")?)?;
    Ok((out.bytes().to_vec(alloc)?, done.status))
}

/// `alike WORDS ; WORDS`: whether two command lines over the folder's files write the same; and the status of each.
pub fn alike<R: Files + Print + AllocGlobal>(rt: &R, text: &str) -> io::Result<()> {
    let (one, other) = text.split_once(" ; ").unwrap_or((text, ""));
    let mut shelf = shelf_of(rt, text)?;
    let (first, status) = written(rt.alloc(), &mut shelf, one)?;
    let (second, behind) = written(rt.alloc(), &mut shelf, other)?;
    let told = if first == second {
        "the same"
    } else {
        "not the same"
    };
    println!(rt; "{told}, status {status} and {behind}")
}
