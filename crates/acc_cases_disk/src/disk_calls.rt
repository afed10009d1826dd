//! The calls of a disk by name.
use crate::images;
use crate::words::{bytes, ended, number, numbers, said, split};
use acc_disk::{Disk, MemDisk};
use acc_io::Failed;
use std::alloc::{AllocError, Global};

/// A disk with the bytes of the first word; the calls of the list behind it fail, and all from the last number on.
pub fn fresh(alloc: Global, words: &str) -> Result<MemDisk, AllocError> {
    let (held, rest) = split(words);
    let (fails, from) = split(rest);
    let fails = numbers(alloc, fails)?;
    MemDisk::new(alloc, bytes(held), &fails, from.parse().ok()).map_err(|_| AllocError)
}

/// What stands at a place, at most eight bytes.
pub fn read<D: Disk>(alloc: Global, disk: &mut D, at: u64) -> Result<String, AllocError> {
    let mut buf = [0u8; 8];
    match disk.read(at, &mut buf) {
        Ok(count) => format!(in alloc; "{:?}", buf.get(..count)),
        Err(Failed) => ended(alloc, false),
    }
}

fn renew(alloc: Global, disk: &mut MemDisk, words: &str) -> Result<String, AllocError> {
    *disk = fresh(alloc, words)?;
    said(alloc, "fresh")
}

fn write(alloc: Global, disk: &mut MemDisk, words: &str) -> Result<String, AllocError> {
    let (at, bytes) = split(words);
    let at = number(at);
    if at > disk.bytes().len() as u64 {
        return said(alloc, "past the end");
    }
    ended(alloc, disk.write_at(at, bytes.as_bytes()).is_ok())
}

fn cut(alloc: Global, disk: &mut MemDisk, to: u64) -> Result<String, AllocError> {
    if to > disk.bytes().len() as u64 {
        return said(alloc, "past the end");
    }
    ended(alloc, disk.cut(to).is_ok())
}

/// How many bytes stand there.
pub fn length<D: Disk>(alloc: Global, disk: &mut D) -> Result<String, AllocError> {
    match disk.len() {
        Ok(count) => format!(in alloc; "{count}"),
        Err(Failed) => ended(alloc, false),
    }
}

fn counts(alloc: Global, disk: &MemDisk) -> Result<String, AllocError> {
    format!(in alloc;
        "{} calls, {} synced, {} refused",
        disk.calls(),
        disk.synced(),
        disk.refused()
    )
}

/// What the call of those words answers.
pub fn answer(alloc: Global, disk: &mut MemDisk, words: &str) -> Result<String, AllocError> {
    let (name, rest) = split(words);
    match name {
        "new" => renew(alloc, disk, rest),
        "len" => length(alloc, disk),
        "read" => read(alloc, disk, number(rest)),
        "write" => write(alloc, disk, rest),
        "cut" => cut(alloc, disk, number(rest)),
        "sync" => ended(alloc, disk.sync().is_ok()),
        _ => told(alloc, disk, words),
    }
}

/// What the question of those words answers.
fn told(alloc: Global, disk: &MemDisk, words: &str) -> Result<String, AllocError> {
    let (name, rest) = split(words);
    match name {
        "bytes" => format!(in alloc; "{:?}", disk.bytes()),
        "counts" => counts(alloc, disk),
        "image" => images::one(alloc, disk, rest),
        "picked" => images::picked(alloc, disk, rest),
        "drawn" => images::drawn(alloc, disk, rest),
        _ => said(alloc, "no call"),
    }
}
