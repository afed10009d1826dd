// Why a file of the machine can't serve as a disk.
use std::io;

/// Why a call of a `FileDisk` failed.
#[derive(Drop)]
pub enum Trouble {
    /// Another process has the file.
    InUse,
    /// A file stands there that isn't to be written over.
    OtherFile,
    /// The file is longer or shorter than this process left it.
    Changed,
    /// What the machine gives as its reason.
    Machine(io::Error),
}

impl From<io::Error> for Trouble {
    fn from(error: io::Error) -> Self {
        Trouble::Machine(error)
    }
}
