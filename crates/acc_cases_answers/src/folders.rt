//! Files of the folder on a shelf.
use acc_cases_commands::memory;
use acc_io::MemShelf;
use std::alloc::AllocError;
use std::fs;
use std::rt::Files;

/// Puts a file of the folder on the shelf, if there is one.
fn hold_file<R: Files + AllocGlobal>(
    rt: &R,
    shelf: &mut MemShelf,
    name: &str,
) -> Result<(), AllocError> {
    match fs::read(rt, name) {
        Ok(bytes) => memory::hold(shelf, name, &bytes),
        Err(_) => Ok(()),
    }
}

/// Puts the folder's files that the words name on the shelf, but for one.
pub fn hold_files<R: Files + AllocGlobal>(
    rt: &R,
    shelf: &mut MemShelf,
    words: &str,
    absent: &str,
) -> Result<(), AllocError> {
    for name in words.split_whitespace() {
        if name != absent {
            hold_file(rt, shelf, name)?;
        }
    }
    Ok(())
}
