//! Multipliers that refute relations.
use crate::spelled::{parted, relations};
use acc_farkas::errors::FarkasError;
use acc_farkas::refuting::refutes;
use std::alloc::{AllocError, Global};

/// The places and multipliers of those words, each as `0:-1`.
fn multipliers(alloc: Global, words: &str) -> Result<Vec<(u32, i128)>, AllocError> {
    let mut pairs = Vec::new(alloc);
    for word in words.split(' ') {
        let (place, by) = parted(word, ":");
        pairs.push((place.parse().unwrap_or(0), by.parse().unwrap_or(0)))?;
    }
    Ok(pairs)
}

/// Whether multipliers refute relations.
fn refuted(alloc: Global, words: &str) -> Result<Result<bool, FarkasError>, AllocError> {
    let (first, second) = parted(words, " with ");
    let relations = relations(alloc, first)?;
    let pairs = multipliers(alloc, second)?;
    Ok(refutes(alloc, relations.as_slice(), pairs.as_slice()))
}

/// Pushes whether multipliers refute relations.
pub fn push_refuted(alloc: Global, out: &mut String, words: &str) -> Result<(), AllocError> {
    match refuted(alloc, words)? {
        Ok(yes) => out.push_str(if yes { "yes" } else { "no" }),
        Err(FarkasError::Wide) => out.push_str("wide"),
        Err(FarkasError::Memory) => Err(AllocError),
    }
}
