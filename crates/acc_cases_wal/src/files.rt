//! Journals on real files.
use crate::answers::push_end;
use crate::journals::fill;
use acc_cases_disk::words::{number, split};
use acc_disk::{Disk, FileDisk, Opening};
use acc_wal::{FIRST_BYTES, Wal, WalError};
use std::alloc::{AllocError, Global};
use std::fmt::Write;
use std::fs::File;
use std::rt::Files;

/// Settles so many batches of so many steps in a journal that was made.
fn filled<D: Disk + Drop>(
    made: Result<Wal<D>, (WalError, D)>,
    batches: u64,
    steps: u32,
) -> Result<(), WalError> {
    match made {
        Ok(mut wal) => fill(&mut wal, batches, steps),
        Err((error, _)) => Err(error),
    }
}

/// How many events a journal has that was attached.
fn count<D: Disk + Drop>(attached: Result<Wal<D>, (WalError, D)>) -> Result<usize, WalError> {
    match attached {
        Ok(wal) => Ok(wal.durable().len()),
        Err((error, _)) => Err(error),
    }
}

/// Makes a journal at a path, settles so many batches of so many steps, and pushes how that ended.
pub fn push_filled<R: Files<File = File>>(
    rt: &R,
    alloc: Global,
    out: &mut String,
    words: &str,
) -> Result<(), AllocError> {
    let (path, rest) = split(words);
    let (batches, steps) = split(rest);
    let (batches, steps) = (number(batches), steps.parse().unwrap_or(0));
    let disk = FileDisk::new(
        rt,
        String::from_str(alloc, path)?,
        Opening::Make(&FIRST_BYTES),
    );
    push_end(out, filled(Wal::create(alloc, disk, b"x"), batches, steps))
}

/// Attaches a journal, and pushes how many events it has.
pub fn push_count<R: Files<File = File>>(
    rt: &R,
    alloc: Global,
    out: &mut String,
    path: &str,
) -> Result<(), AllocError> {
    let disk = FileDisk::new(rt, String::from_str(alloc, path)?, Opening::Use);
    match count(Wal::attach(alloc, disk)) {
        Ok(count) => write!(out, "{count} events"),
        Err(error) => push_end(out, Err(error)),
    }
}
