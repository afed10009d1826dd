//! The standard streams: their descriptors, and what is written to standard error.
use std::alloc::AllocError;
use std::fs::File;
use std::io::Write;
use std::os::fd::AsRawFd;
use std::{fs, io};

/// What is opened in the place of a stream that was closed: it can't be written to, as a closed stream can't.
const PLACEHOLDER: &str = "/";

/// The highest descriptor of a standard stream.
const STDERR: i32 = 2;

/// Takes the descriptor of each standard stream that was closed, so that no file that is opened later gets it, and with it what is printed.
/// They are free again where the answer is dropped.
pub fn hold_streams(rt: &HostRuntime) -> io::Result<Vec<File>> {
    let mut held = Vec::new(rt.alloc());
    for _ in 0..=STDERR {
        let file = fs::open(rt, PLACEHOLDER)?;
        if file.as_raw_fd() > STDERR {
            break;
        }
        held.push(file)?;
    }
    Ok(held)
}

/// Writes to standard error. What fails there changes nothing else.
pub fn write_error(rt: &HostRuntime, text: &[u8]) {
    match rt.stderr().write_all(text) {
        Ok(()) | Err(_) => {}
    }
}

/// Writes a line to standard error, if memory lasted to make it.
pub fn tell_line(rt: &HostRuntime, line: Result<String, AllocError>) {
    if let Ok(line) = line {
        write_error(rt, line.as_bytes());
    }
}
