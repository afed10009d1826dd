//! Recoveries of a disk.
use crate::answers::{push_events, push_recover_error};
use acc_cases_words::rows::push_row_answer;
use acc_disk::MemDisk;
use acc_lift::Accepted;
use acc_progress::Silent;
use acc_recover::{RecoverError, Recovered, recover};
use acc_store::MapStore;
use acc_wal::Wal;
use std::alloc::{AllocError, Global};
use std::fmt::Write;

/// A disk with these bytes, one of whose calls fails; 0 is none's number.
pub fn fresh(alloc: Global, bytes: &[u8], fails: u64) -> Result<MemDisk, AllocError> {
    MemDisk::new(alloc, bytes, &[fails], None).map_err(|_| AllocError)
}

/// How many events the journal of these bytes has, and 0 where they are none's.
fn count(alloc: Global, bytes: &[u8]) -> Result<usize, AllocError> {
    match Wal::attach(alloc, fresh(alloc, bytes, 0)?) {
        Ok(wal) => Ok(wal.durable().len()),
        Err(_) => Ok(0),
    }
}

/// Pushes what was recovered: how many events and compensated transactions, the events behind so many that were found, and the rows.
fn push_recovered(
    alloc: Global,
    out: &mut String,
    recovered: &Recovered<MapStore, MemDisk>,
    found: usize,
) -> Result<(), AllocError> {
    let events = recovered.state.events().as_slice();
    write!(
        out,
        "events {} compensated {}",
        events.len(),
        recovered.compensated
    )?;
    push_events(out, events.get(found..).unwrap_or(&[]))?;
    out.push_str(", ")?;
    push_row_answer(alloc, out, recovered.state.store(), &["rows"])
}

/// Pushes what the recovery of a disk gives, or why there is none; hands the disk back.
pub fn push_recovery(
    alloc: Global,
    out: &mut String,
    design: &Accepted,
    disk: MemDisk,
) -> Result<MemDisk, AllocError> {
    let found = count(alloc, disk.bytes())?;
    match recover(alloc, design, MapStore::new(alloc), disk, &mut Silent) {
        Ok(recovered) => {
            push_recovered(alloc, out, &recovered, found)?;
            Ok(recovered.wal.give_back())
        }
        Err((error, _, disk)) => {
            push_recover_error(out, error)?;
            Ok(disk)
        }
    }
}

/// How many events the recovery of these bytes gives.
fn recovered_count(alloc: Global, design: &Accepted, bytes: &[u8]) -> Result<usize, RecoverError> {
    let Ok(disk) = fresh(alloc, bytes, 0) else {
        return Err(RecoverError::Memory);
    };
    match recover(alloc, design, MapStore::new(alloc), disk, &mut Silent) {
        Ok(recovered) => Ok(recovered.state.events().len()),
        Err((error, _, _)) => Err(error),
    }
}

/// Pushes how many events recovery finds in these bytes and how many it adds, or why there is none.
pub fn push_counts(
    alloc: Global,
    out: &mut String,
    design: &Accepted,
    bytes: &[u8],
) -> Result<(), AllocError> {
    let found = count(alloc, bytes)?;
    match recovered_count(alloc, design, bytes) {
        Ok(all) => write!(out, "{found}+{}", all.saturating_sub(found)),
        Err(error) => push_recover_error(out, error),
    }
}
