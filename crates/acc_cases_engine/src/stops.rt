//! What recovery makes of the images that a crash leaves behind each call of a disk.
use acc_cases_engine_runs::runs::{Case, push_whole};
use acc_cases_journals::recoveries::push_counts;
use acc_disk::MemDisk;
use acc_lift::Accepted;
use std::alloc::{AllocError, Global};
use std::fmt::Write;

/// An image that a crash leaves; none where fewer calls were made.
fn image(disk: &MemDisk, after: u64, pick: u64) -> Result<Vec<u8>, AllocError> {
    if after > disk.calls() {
        return Err(AllocError);
    }
    disk.image(after, pick).map_err(|_| AllocError)
}

/// What recovery makes of an image.
fn found(
    alloc: Global,
    design: &Accepted,
    disk: &MemDisk,
    after: u64,
    pick: u64,
) -> Result<String, AllocError> {
    let image = image(disk, after, pick)?;
    let mut out = String::new(alloc);
    push_counts(alloc, &mut out, design, &image)?;
    Ok(out)
}

/// What recovery makes of the images of a stop, each answer once, in order.
fn answers(
    alloc: Global,
    design: &Accepted,
    disk: &MemDisk,
    after: u64,
    picks: u64,
) -> Result<Vec<String>, AllocError> {
    let mut answers = Vec::new(alloc);
    for pick in 0..picks {
        let answer = found(alloc, design, disk, after, pick)?;
        if !answers.contains(&answer) {
            answers.push(answer)?;
        }
    }
    answers.sort()?;
    Ok(answers)
}

/// Pushes answers, with blanks.
fn push_all(out: &mut String, answers: &[String]) -> Result<(), AllocError> {
    let mut mark = "";
    for answer in answers {
        write!(out, "{mark}{answer}")?;
        mark = " ";
    }
    Ok(())
}

/// Pushes what recovery makes of the images of each stop of a disk.
fn push_each(
    alloc: Global,
    out: &mut String,
    design: &Accepted,
    disk: &MemDisk,
    picks: u64,
) -> Result<(), AllocError> {
    let mut mark = "";
    for after in 0..disk.calls().saturating_add(1) {
        out.push_str(mark)?;
        push_all(out, &answers(alloc, design, disk, after, picks)?)?;
        mark = " | ";
    }
    Ok(())
}

/// Pushes what recovery makes of the images of each stop, from before the first call on.
pub fn push_stops(
    alloc: Global,
    out: &mut String,
    case: &Case,
    picks: u64,
) -> Result<(), AllocError> {
    let mut run = String::new(alloc);
    let disk = push_whole(alloc, &mut run, case, 0)?;
    push_each(alloc, out, case.design, &disk, picks)
}
