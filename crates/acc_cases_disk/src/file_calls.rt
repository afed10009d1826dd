//! Calls of a disk over a real file, several a line.
use crate::disk_calls::{length, read};
use crate::words::{ended, number, said, split};
use acc_disk::{Disk, FileDisk, Opening, Trouble};
use acc_io::Failed;
use std::alloc::{AllocError, Global};
use std::fs;
use std::fs::File;
use std::rt::Files;

/// The files that these calls may write over begin so.
const BEGINNINGS: &[u8] = b"a";

/// Why the first call that failed did so.
fn trouble<R: Files<File = File>>(disk: &FileDisk<R>) -> &'static str {
    match disk.trouble() {
        Some(Trouble::InUse) => "in use",
        Some(Trouble::OtherFile) => "other file",
        Some(Trouble::Changed) => "changed",
        Some(Trouble::Machine(_)) => "machine",
        None => "none",
    }
}

fn write<R: Files<File = File>>(
    alloc: Global,
    disk: &mut FileDisk<R>,
    words: &str,
) -> Result<String, AllocError> {
    let (at, bytes) = split(words);
    ended(alloc, disk.write_at(number(at), bytes.as_bytes()).is_ok())
}

/// What the call of those words answers.
fn called<R: Files<File = File>>(
    alloc: Global,
    disk: &mut FileDisk<R>,
    words: &str,
) -> Result<String, AllocError> {
    let (name, rest) = split(words);
    match name {
        "len" => length(alloc, disk),
        "read" => read(alloc, disk, number(rest)),
        "write" => write(alloc, disk, rest),
        "cut" => ended(alloc, disk.cut(number(rest)).is_ok()),
        "sync" => ended(alloc, disk.sync().is_ok()),
        "trouble" => said(alloc, trouble(disk)),
        _ => said(alloc, "no call"),
    }
}

/// Pushes what each of the calls answers.
fn push_calls<R: Files<File = File>>(
    alloc: Global,
    out: &mut String,
    disk: &mut FileDisk<R>,
    calls: &str,
) -> Result<(), AllocError> {
    for call in calls.split("; ") {
        let said = called(alloc, disk, call)?;
        let mark = if out.is_empty() { "" } else { "; " };
        write!(out, "{mark}{said}")?;
    }
    Ok(())
}

/// What the calls behind a path answer of the file there, opened so.
fn answer_opened<R: Files<File = File> + AllocGlobal>(
    rt: &R,
    opening: Opening,
    words: &str,
) -> Result<String, AllocError> {
    let (path, calls) = split(words);
    let mut disk = FileDisk::new(rt, String::from_str(rt.alloc(), path)?, opening);
    let mut out = String::new(rt.alloc());
    push_calls(rt.alloc(), &mut out, &mut disk, calls)?;
    Ok(out)
}

/// What the calls behind a path answer of the file there, which is made where it is absent.
pub fn answer<R: Files<File = File> + AllocGlobal>(
    rt: &R,
    words: &str,
) -> Result<String, AllocError> {
    answer_opened(rt, Opening::Make(BEGINNINGS), words)
}

/// What the calls behind a path answer of the file there, which is only used.
pub fn answer_used<R: Files<File = File> + AllocGlobal>(
    rt: &R,
    words: &str,
) -> Result<String, AllocError> {
    answer_opened(rt, Opening::Use, words)
}

/// What the calls behind a path answer of a file that another disk has.
pub fn answer_second<R: Files<File = File> + AllocGlobal>(
    rt: &R,
    words: &str,
) -> Result<String, AllocError> {
    let (path, _) = split(words);
    let mut first = FileDisk::new(rt, String::from_str(rt.alloc(), path)?, Opening::Use);
    match first.len() {
        Ok(_) => answer_used(rt, words),
        Err(Failed) => said(rt.alloc(), "the first disk doesn't have it"),
    }
}

/// What the calls behind a path answer of a file whose bytes are others than when the disk looked first.
pub fn answer_changed<R: Files<File = File> + AllocGlobal>(
    rt: &R,
    words: &str,
) -> Result<String, AllocError> {
    let (path, calls) = split(words);
    let mut disk = FileDisk::new(rt, String::from_str(rt.alloc(), path)?, Opening::Use);
    let mut out = length(rt.alloc(), &mut disk)?;
    match fs::write(rt, path, b"another text") {
        Ok(()) => push_calls(rt.alloc(), &mut out, &mut disk, calls)?,
        Err(_) => out.push_str("; can't be changed")?,
    }
    Ok(out)
}

/// Whether a byte is written to the file at that path.
pub fn takes_a_byte<R: Files<File = File> + AllocGlobal>(
    rt: &R,
    path: &str,
) -> Result<bool, AllocError> {
    let path = String::from_str(rt.alloc(), path)?;
    let mut disk = FileDisk::new(rt, path, Opening::Make(BEGINNINGS));
    Ok(disk.write_at(0, b"X").is_ok())
}
