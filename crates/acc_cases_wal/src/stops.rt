//! What attaching finds after a stop behind each call of a disk.
use crate::answers::push_found;
use acc_disk::MemDisk;
use acc_wal::Wal;
use std::alloc::{AllocError, Global};
use std::fmt::Write;

/// An image that a crash leaves; none where fewer calls were made.
fn image(disk: &MemDisk, after: u64, pick: u64) -> Result<Vec<u8>, AllocError> {
    if after > disk.calls() {
        return Err(AllocError);
    }
    disk.image(after, pick).map_err(|_| AllocError)
}

/// What attaching finds in an image.
fn found(alloc: Global, disk: &MemDisk, after: u64, pick: u64) -> Result<String, AllocError> {
    let image = image(disk, after, pick)?;
    let mut out = String::new(alloc);
    push_found(alloc, &mut out, &image)?;
    Ok(out)
}

/// What attaching finds in the images of a stop, each answer once, in order.
fn answers(
    alloc: Global,
    disk: &MemDisk,
    after: u64,
    picks: u64,
) -> Result<Vec<String>, AllocError> {
    let mut answers = Vec::new(alloc);
    for pick in 0..picks {
        let answer = found(alloc, disk, after, pick)?;
        if !answers.contains(&answer) {
            answers.push(answer)?;
        }
    }
    answers.sort()?;
    Ok(answers)
}

/// Pushes answers, with blanks.
fn push_all(out: &mut String, answers: &[String]) -> Result<(), AllocError> {
    let mut mark = "";
    for answer in answers {
        write!(out, "{mark}{answer}")?;
        mark = " ";
    }
    Ok(())
}

/// Pushes what attaching finds in so many images of each stop, from before the first call on.
pub fn push_stops(
    alloc: Global,
    out: &mut String,
    disk: &MemDisk,
    picks: u64,
) -> Result<(), AllocError> {
    let mut mark = "";
    for after in 0..disk.calls().saturating_add(1) {
        out.push_str(mark)?;
        push_all(out, answers(alloc, disk, after, picks)?.as_slice())?;
        mark = " | ";
    }
    Ok(())
}

/// The disk on which some bytes were attached, whatever that answered.
fn attached(alloc: Global, bytes: &[u8]) -> Result<MemDisk, AllocError> {
    let disk = MemDisk::new(alloc, bytes, &[], None).map_err(|_| AllocError)?;
    Ok(match Wal::attach(alloc, disk) {
        Ok(wal) => wal.give_back(),
        Err((_, disk)) => disk,
    })
}

/// How many images of the stops of a disk are attached otherwise than by that answer.
fn others(alloc: Global, disk: &MemDisk, picks: u64, answer: &String) -> Result<u64, AllocError> {
    let mut others: u64 = 0;
    for after in 0..disk.calls().saturating_add(1) {
        if answers(alloc, disk, after, picks)?
            .iter()
            .any(|other| other != answer)
        {
            others = others.saturating_add(1);
        }
    }
    Ok(others)
}

/// After how many calls of attaching an image of a stop something else is found than at first.
fn changes(alloc: Global, disk: &MemDisk, after: u64, picks: u64) -> Result<u64, AllocError> {
    let mut changes: u64 = 0;
    for pick in 0..picks {
        let answer = found(alloc, disk, after, pick)?;
        let again = attached(alloc, &image(disk, after, pick)?)?;
        changes = changes.saturating_add(others(alloc, &again, picks, &answer)?);
    }
    Ok(changes)
}

/// Pushes for each stop after how many calls of attaching its images attaching finds something else than at first.
pub fn push_changes(
    alloc: Global,
    out: &mut String,
    disk: &MemDisk,
    picks: u64,
) -> Result<(), AllocError> {
    let mut mark = "";
    for after in 0..disk.calls().saturating_add(1) {
        let changes = changes(alloc, disk, after, picks)?;
        write!(out, "{mark}{changes}")?;
        mark = " ";
    }
    Ok(())
}
