//! Disks in memory as the lines of cases spell them.
use crate::memory::{self, bytes_of};
use crate::texts::{first_word, numbers};
use acc_disk::MemDisk;
use acc_io::MemShelf;
use std::alloc::{AllocError, Global};

/// The spelling of bytes, two digits each; a `-` where there are none.
fn spelled(alloc: Global, bytes: &[u8]) -> Result<String, AllocError> {
    if bytes.is_empty() {
        String::from_str(alloc, "-")
    } else {
        hex::encode(alloc, bytes)
    }
}

/// A disk: its bytes, the calls that fail, and the one from which on all fail.
pub fn disk(alloc: Global, bytes: &[u8], fails: &str, from: &str) -> Result<MemDisk, AllocError> {
    let fails = numbers(alloc, fails)?;
    memory::disk(alloc, bytes, &fails, from.parse().ok())
}

/// The journal that `init` makes of a command line's design, but for its last byte.
fn base_of(alloc: Global, shelf: &mut MemShelf, words: &str) -> Result<Vec<u8>, AllocError> {
    let (_, names) = first_word(words);
    let (design, _) = first_word(names);
    let line = format!(in alloc; "init {design}")?;
    let mut out = memory::sink(alloc, &[], &[])?;
    let disk = memory::disk(alloc, &[], &[], None)?;
    let done = memory::answer_over(alloc, line.as_str(), shelf, &mut out, disk)?;
    let journal = done.disk.bytes();
    journal[..journal.len().saturating_sub(1)].to_vec(alloc)
}

/// The journal of a command line's design but for its last byte, where the bytes stand behind a `+`; else nothing.
pub fn base(
    alloc: Global,
    shelf: &mut MemShelf,
    bytes: &str,
    words: &str,
) -> Result<Vec<u8>, AllocError> {
    if bytes.starts_with('+') {
        base_of(alloc, shelf, words)
    } else {
        Ok(Vec::new(alloc))
    }
}

/// The bytes of a base, and those that a text spells behind them.
pub fn file(alloc: Global, base: &[u8], bytes: &str) -> Result<Vec<u8>, AllocError> {
    let mut file = base.to_vec(alloc)?;
    let behind = bytes_of(alloc, bytes.strip_prefix('+').unwrap_or(bytes));
    file.extend_from_slice(&behind)?;
    Ok(file)
}

/// The spelling of a file; of one with that base the spelling of what stands behind it, with a `+` before.
pub fn spelled_behind(alloc: Global, base: &[u8], file: &[u8]) -> Result<String, AllocError> {
    if base.is_empty() || !file.starts_with(base) {
        return spelled(alloc, file);
    }
    let behind = spelled(alloc, &file[base.len()..])?;
    format!(in alloc; "+{behind}")
}
