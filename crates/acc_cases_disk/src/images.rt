//! What a crash may have left, one image or all of them.
use crate::words::{bytes, number, said, split};
use acc_disk::MemDisk;
use std::alloc::{AllocError, Global};

/// One mark for no byte, 256 for one byte, and 65,536 for two.
const MARKS: usize = 1 + 256 + 65_536;

/// The image of a number; none where fewer calls were made.
fn image(disk: &MemDisk, after: u64, pick: u64) -> Result<Option<Vec<u8>>, AllocError> {
    if after > disk.calls() {
        return Ok(None);
    }
    match disk.image(after, pick) {
        Ok(image) => Ok(Some(image)),
        Err(_) => Err(AllocError),
    }
}

/// The image of a number after so many calls.
pub fn one(alloc: Global, disk: &MemDisk, words: &str) -> Result<String, AllocError> {
    let (after, pick) = split(words);
    match image(disk, number(after), number(pick))? {
        Some(image) => format!(in alloc; "{:?}", image.as_slice()),
        None => said(alloc, "fewer calls"),
    }
}

/// Whether a number picks those bytes.
fn picks(disk: &MemDisk, after: u64, pick: u64, bytes: &[u8]) -> Result<bool, AllocError> {
    Ok(image(disk, after, pick)?.is_some_and(|image| image.as_slice() == bytes))
}

fn count_picks(disk: &MemDisk, after: u64, count: u64, bytes: &[u8]) -> Result<u64, AllocError> {
    let mut same: u64 = 0;
    for pick in 0..count {
        if picks(disk, after, pick, bytes)? {
            same = same.saturating_add(1);
        }
    }
    Ok(same)
}

/// How many of the numbers below a count pick those bytes after so many calls.
pub fn picked(alloc: Global, disk: &MemDisk, words: &str) -> Result<String, AllocError> {
    let (after, rest) = split(words);
    let (count, held) = split(rest);
    let same = count_picks(disk, number(after), number(count), bytes(held))?;
    format!(in alloc; "{same}")
}

/// The place of some bytes in the list of all bytes, the shorter ones first.
fn place_of(bytes: &[u8]) -> usize {
    bytes.iter().fold(0usize, |place, byte| {
        place
            .wrapping_mul(256)
            .wrapping_add(*byte as usize)
            .wrapping_add(1)
    })
}

/// The place of what stands between that front and that end.
fn place_between(image: &[u8], front: &[u8], end: &[u8]) -> Option<usize> {
    let rest = image.strip_prefix(front)?;
    Some(place_of(rest.strip_suffix(end)?))
}

/// Marks what the image of a number has between that front and that end. Answers whether it has a mark.
fn mark(
    disk: &MemDisk,
    pick: u64,
    front: &[u8],
    end: &[u8],
    marks: &mut [bool],
) -> Result<bool, AllocError> {
    let image = image(disk, disk.calls(), pick)?.ok_or(AllocError)?;
    let place = place_between(&image, front, end).unwrap_or(usize::MAX);
    let Some(mark) = marks.get_mut(place) else {
        return Ok(false);
    };
    *mark = true;
    Ok(true)
}

/// Marks each image that the numbers pick by their digits, from 0 up to that count. Answers how many have no mark.
fn mark_all(
    disk: &MemDisk,
    count: u64,
    front: &[u8],
    end: &[u8],
    marks: &mut [bool],
) -> Result<u64, AllocError> {
    let mut others: u64 = 0;
    for digits in 0..count {
        let pick = digits.wrapping_mul(4).wrapping_add(2);
        if !mark(disk, pick, front, end, marks)? {
            others = others.saturating_add(1);
        }
    }
    Ok(others)
}

fn count(marks: Option<&[bool]>) -> usize {
    let marks = marks.unwrap_or(&[]);
    marks.iter().filter(|mark| **mark).count()
}

/// How many marks there are for no byte, for one and for two.
fn counts(marks: &[bool]) -> [usize; 3] {
    [
        count(marks.get(..1)),
        count(marks.get(1..257)),
        count(marks.get(257..)),
    ]
}

/// How many of no byte, of one and of two stand between front and end in some image of the numbers below that count, and how
/// many images are others.
pub fn drawn(alloc: Global, disk: &MemDisk, words: &str) -> Result<String, AllocError> {
    let (numbers, rest) = split(words);
    let (front, end) = split(rest);
    let mut marks = vec![in alloc; false; MARKS]?;
    let others = mark_all(disk, number(numbers), bytes(front), bytes(end), &mut marks)?;
    let lengths = counts(&marks);
    format!(in alloc; "{lengths:?}, {others} others")
}
