//! The bytes of journals.
use acc_base::designs::Design;
use acc_lift::Accepted;
use acc_print::print;
use std::alloc::{AllocError, Global};

/// The bytes that digits spell; none where they spell none.
fn bytes(alloc: Global, digits: &str) -> Result<Vec<u8>, AllocError> {
    match hex::decode(alloc, digits) {
        Ok(bytes) => Ok(bytes),
        Err(_) => Ok(Vec::new(alloc)),
    }
}

/// What stands before the batches of a journal of that version and of the design's text.
fn header(alloc: Global, design: &Design, version: u8) -> Result<Vec<u8>, AllocError> {
    let Ok(text) = print(alloc, design) else {
        return Err(AllocError);
    };
    let Ok(long) = u32::try_from(text.len()) else {
        return Err(AllocError);
    };
    let mut header = Vec::new(alloc);
    header.extend_from_slice(&[0xA5, version])?;
    header.extend_from_slice(&long.to_be_bytes())?;
    header.extend_from_slice(&text)?;
    Ok(header)
}

/// The bytes of the journal that a word spells.
pub fn journal(alloc: Global, design: &Accepted, word: &str) -> Result<Vec<u8>, AllocError> {
    let Some((version, digits)) = word.split_once('+') else {
        return bytes(alloc, word);
    };
    let version = version.parse().unwrap_or(0);
    let mut journal = header(alloc, design.design(), version)?;
    journal.extend_from_slice(&bytes(alloc, digits)?)?;
    Ok(journal)
}
