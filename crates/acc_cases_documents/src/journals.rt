//! The journals that a document's commands name, in memory.
use std::alloc::{AllocError, Global};

/// A journal's file.
#[derive(Drop)]
struct JournalFile {
    name: String,
    bytes: Vec<u8>,
}

/// Files of journals by name. Of several of one name the last counts.
#[derive(Drop)]
pub struct Journals {
    held: Vec<JournalFile>,
}

impl Journals {
    /// No file.
    pub fn new(alloc: Global) -> Self {
        Journals {
            held: Vec::new(alloc),
        }
    }

    /// The bytes of the file of that name; none where there is no such file.
    pub fn bytes(&self, alloc: Global, name: &str) -> Result<Vec<u8>, AllocError> {
        let mut found = Vec::new(alloc);
        for journal in &self.held {
            if journal.name.as_str() == name {
                found = journal.bytes.to_vec(alloc)?;
            }
        }
        Ok(found)
    }

    /// Puts a file there.
    pub fn hold(&mut self, alloc: Global, name: &str, bytes: &[u8]) -> Result<(), AllocError> {
        let bytes = bytes.to_vec(alloc)?;
        let name = String::from_str(alloc, name)?;
        self.held.push(JournalFile { name, bytes })?;
        Ok(())
    }

    /// Puts the first so many bytes of one file into another: `-c COUNT FROM > TO`, as a crash leaves them.
    pub fn take_front(&mut self, alloc: Global, words: &[&str]) -> Result<(), AllocError> {
        let ["-c", count, from, ">", to] = words else {
            return Ok(());
        };
        let bytes = self.bytes(alloc, from)?;
        let count = count.parse().unwrap_or(0).min(bytes.len());
        self.hold(alloc, to, &bytes[..count])
    }
}
