//! The system's reason why a file isn't given.
use std::alloc::Global;
use std::io::Read;
use std::rt::Files;
use std::{fs, io};

/// Opens a file, and reads its first byte, if it has one.
fn probe<R: Files>(rt: &R, alloc: Global, name: &str) -> io::Result<()> {
    let mut bytes = Vec::new(alloc);
    fs::open(rt, name)?.take(1).read_to_end(&mut bytes)?;
    Ok(())
}

/// A line with the system's reason for the first of the files that it doesn't give; nothing where it gives them all. They are tried
/// anew, and what is told is of what is tried then.
pub fn system_reason<R: Files>(rt: &R, alloc: Global, names: &[String]) -> io::Result<String> {
    for name in names {
        if let Err(error) = probe(rt, alloc, name.as_str()) {
            return Ok(format!(in alloc; "{name}: {error}\n")?);
        }
    }
    Ok(String::new(alloc))
}
