//! Disks in memory that schedules run over.
use acc_cases_journals::files::{create, file};
use acc_cases_journals::recoveries::fresh;
use acc_disk::MemDisk;
use acc_lift::Accepted;
use acc_wal::WalError;
use std::alloc::{AllocError, Global};

/// A disk whose calls fail from that number on.
fn failing(alloc: Global, from: Option<u64>) -> Result<MemDisk, AllocError> {
    MemDisk::new(alloc, &[], &[], from).map_err(|_| AllocError)
}

/// A disk with a journal of the design's text, whose calls fail from that number on.
pub fn created(alloc: Global, design: &Accepted, from: Option<u64>) -> Result<MemDisk, AllocError> {
    match create(alloc, design.design(), failing(alloc, from)?) {
        Ok(disk) => Ok(disk),
        Err((WalError::Memory, _)) => Err(AllocError),
        Err(
            (
                WalError::Exists
                | WalError::NotJournal
                | WalError::OtherVersion(_)
                | WalError::Damaged(_)
                | WalError::Disk
                | WalError::Spent,
                disk,
            ),
        ) => Ok(disk),
    }
}

/// A disk with the bytes that a word spells, behind a `+` in the place of the gate of a journal of the design's text.
pub fn spelled(alloc: Global, design: &Accepted, word: &str) -> Result<MemDisk, AllocError> {
    fresh(alloc, &file(alloc, design, word)?, 0)
}
