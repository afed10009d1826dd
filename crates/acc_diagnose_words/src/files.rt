//! What is said where no line of a file is wrong.
use crate::numbers::push_with;
use acc_page::Page;

/// A file that isn't there.
pub fn absent_text() -> &'static [u8] {
    b"there is no such file"
}

/// Writes that a file has more bytes than a file may have.
pub fn push_long(out: &mut Page, most: u64) {
    push_with(
        out,
        b"the file is too long: a file has at most ",
        most,
        b" bytes",
    )
}

/// A file that can't be read.
pub fn failed_text() -> &'static [u8] {
    b"the file can't be read; it may be a folder, or not readable for you"
}

/// A sink that failed.
pub fn sink_text() -> &'static [u8] {
    b"standard output couldn't be written; the device may be full, or the reader may have gone"
}

/// Want of memory.
pub fn memory_text() -> &'static [u8] {
    b"memory ran out; nothing was printed"
}
