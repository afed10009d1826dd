//! What the calls of a journal answer, by words.
use crate::events::push_events;
use acc_disk::MemDisk;
use acc_wal::{Wal, WalError};
use std::alloc::{AllocError, Global};
use std::fmt::Write;

/// Pushes why a call isn't done.
pub fn push_refusal(out: &mut String, error: WalError) -> Result<(), AllocError> {
    match error {
        WalError::Exists => out.push_str("exists"),
        WalError::NotJournal => out.push_str("none"),
        WalError::OtherVersion(version) => write!(out, "version {version}"),
        WalError::Damaged(place) => write!(out, "damaged {place}"),
        WalError::Disk => out.push_str("disk"),
        WalError::Spent => out.push_str("spent"),
        WalError::Memory => out.push_str("memory"),
    }
}

/// Pushes how a call ended that gives nothing back.
pub fn push_end(out: &mut String, end: Result<(), WalError>) -> Result<(), AllocError> {
    match end {
        Ok(()) => out.push_str("ok"),
        Err(error) => push_refusal(out, error),
    }
}

/// Pushes what attaching finds in some bytes: the durable events, or why there are none.
pub fn push_found(alloc: Global, out: &mut String, bytes: &[u8]) -> Result<(), AllocError> {
    let disk = MemDisk::new(alloc, bytes, &[], None).map_err(|_| AllocError)?;
    match Wal::attach(alloc, disk) {
        Ok(wal) => push_events(out, wal.durable()),
        Err((error, _)) => push_refusal(out, error),
    }
}
