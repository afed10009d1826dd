//! Journals of a design's text, and bytes that are spelled out.
use crate::recoveries::{fresh, push_recovery};
use acc_base::designs::Design;
use acc_disk::MemDisk;
use acc_lift::Accepted;
use acc_print::print;
use acc_wal::{Wal, WalError};
use std::alloc::{AllocError, Global};

/// The most bytes of a base text here.
const LONGEST: usize = 1 << 31;

/// Makes a journal of the design's text on a disk.
pub fn create(
    alloc: Global,
    design: &Design,
    disk: MemDisk,
) -> Result<MemDisk, (WalError, MemDisk)> {
    let Ok(text) = print(alloc, design) else {
        return Err((WalError::Memory, disk));
    };
    if text.len() > LONGEST {
        return Err((WalError::Memory, disk));
    }
    match Wal::create(alloc, disk, &text) {
        Ok(wal) => Ok(wal.give_back()),
        Err(refusal) => Err(refusal),
    }
}

/// The bytes that digits spell; none where they spell none.
fn bytes(alloc: Global, digits: &str) -> Result<Vec<u8>, AllocError> {
    match hex::decode(alloc, digits) {
        Ok(bytes) => Ok(bytes),
        Err(_) => Ok(Vec::new(alloc)),
    }
}

/// The journal of the design's text without its gate, and these bytes behind it.
fn behind(alloc: Global, design: &Accepted, batches: &[u8]) -> Result<Vec<u8>, AllocError> {
    let disk = match create(alloc, design.design(), fresh(alloc, &[], 0)?) {
        Ok(disk) => disk,
        Err(_) => return Err(AllocError),
    };
    let journal = disk.bytes();
    let mut file = journal[..journal.len().saturating_sub(1)].to_vec(alloc)?;
    file.extend_from_slice(batches)?;
    Ok(file)
}

/// The bytes that a word spells. Behind a `+` they stand in the place of the gate of a journal of the design's text.
pub fn file(alloc: Global, design: &Accepted, word: &str) -> Result<Vec<u8>, AllocError> {
    match word.strip_prefix('+') {
        Some(digits) => {
            let batches = bytes(alloc, digits)?;
            behind(alloc, design, &batches)
        }
        None => bytes(alloc, word),
    }
}

/// Pushes the recovery of the bytes that a word spells.
pub fn push_file(
    alloc: Global,
    out: &mut String,
    design: &Accepted,
    word: &str,
) -> Result<(), AllocError> {
    let file = file(alloc, design, word)?;
    push_recovery(alloc, out, design, fresh(alloc, &file, 0)?)?;
    Ok(())
}
