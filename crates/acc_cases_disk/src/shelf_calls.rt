//! The calls of a shelf by name, and the counting of reads.
use crate::words::{ended, numbers, said, split};
use acc_io::{Counts, MemShelf, Shelf, ShelfError};
use std::alloc::{AllocError, Global};

/// A shelf without a file; the reads of the list fail.
pub fn fresh(alloc: Global, fails: &str) -> Result<MemShelf, AllocError> {
    let fails = numbers(alloc, fails)?;
    MemShelf::new(alloc, fails.as_slice()).map_err(|_| AllocError)
}

/// Why a file isn't given.
fn refused(alloc: Global, error: ShelfError) -> Result<String, AllocError> {
    match error {
        ShelfError::Absent => said(alloc, "absent"),
        ShelfError::Long(length) => format!(in alloc; "long {length}"),
        ShelfError::Memory => said(alloc, "memory"),
        ShelfError::Failed => ended(alloc, false),
    }
}

/// The bytes of a file.
pub fn read<S: Shelf>(alloc: Global, shelf: &mut S, name: &str) -> Result<String, AllocError> {
    match shelf.read(alloc, name) {
        Ok(bytes) => format!(in alloc; "{:?}", bytes.as_slice()),
        Err(error) => refused(alloc, error),
    }
}

/// How many bytes a file has that is read.
pub fn length<S: Shelf>(alloc: Global, shelf: &mut S, name: &str) -> Result<String, AllocError> {
    match shelf.read(alloc, name) {
        Ok(bytes) => format!(in alloc; "{} bytes", bytes.len()),
        Err(error) => refused(alloc, error),
    }
}

/// The answer of a read that a word names.
fn answer_of(alloc: Global, word: &str) -> Result<Vec<u8>, ShelfError> {
    match word {
        "failed" => Err(ShelfError::Failed),
        "absent" => Err(ShelfError::Absent),
        "long" => Err(ShelfError::Long(67_108_865)),
        "memory" => Err(ShelfError::Memory),
        _ => Ok(Vec::new(alloc)),
    }
}

/// The counts of reads with those answers.
fn counted(alloc: Global, answers: &str) -> Counts {
    let mut counts = Counts::none();
    for word in answers.split_whitespace() {
        counts.add(&answer_of(alloc, word));
    }
    counts
}

fn counts(alloc: Global, counts: &Counts) -> Result<String, AllocError> {
    format!(in alloc;
        "{} reads, {} faults, {} absences, last fault {}, last absence {}",
        counts.reads, counts.faults, counts.absences, counts.last_fault, counts.last_absence
    )
}

fn hold(alloc: Global, shelf: &mut MemShelf, words: &str) -> Result<String, AllocError> {
    let (name, bytes) = split(words);
    ended(alloc, shelf.hold(name, bytes.as_bytes()).is_ok())
}

/// Holds a file of so many bytes.
fn hold_long(alloc: Global, shelf: &mut MemShelf, words: &str) -> Result<String, AllocError> {
    let (name, count) = split(words);
    let bytes = vec![in alloc; 0u8; count.parse().unwrap_or(0)]?;
    ended(alloc, shelf.hold(name, &bytes).is_ok())
}

fn renew(alloc: Global, shelf: &mut MemShelf, fails: &str) -> Result<String, AllocError> {
    *shelf = fresh(alloc, fails)?;
    said(alloc, "fresh")
}

/// What the call of those words answers.
pub fn answer(alloc: Global, shelf: &mut MemShelf, words: &str) -> Result<String, AllocError> {
    let (name, rest) = split(words);
    match name {
        "new" => renew(alloc, shelf, rest),
        "hold" => hold(alloc, shelf, rest),
        "hold_long" => hold_long(alloc, shelf, rest),
        "read" => read(alloc, shelf, rest),
        "length" => length(alloc, shelf, rest),
        "count" => counts(alloc, &counted(alloc, rest)),
        _ => said(alloc, "no call"),
    }
}
