//! Calls of a shelf over the folder that the program runs in, and of its files.
use crate::file_calls::takes_a_byte;
use crate::shelf_calls::{length, read};
use crate::words::{ended, number, said, split};
use acc_io::FolderShelf;
use std::alloc::AllocError;
use std::fs::{File, OpenFile, OpenOptions};
use std::rt::Files;
use std::{fs, io};

/// Makes a file of that length without a byte written, which takes no room.
fn stretch<R: Files<File = File>>(rt: &R, words: &str) -> io::Result<()> {
    let (path, length) = split(words);
    let file = fs::create(rt, path)?;
    file.set_len(number(length))
}

/// Makes a file that may only be read.
fn keep<R: Files<File = File>>(rt: &R, path: &str) -> io::Result<()> {
    fs::write(rt, path, b"abc")?;
    let mut permissions = fs::metadata(rt, path)?.permissions();
    permissions.set_readonly(true);
    fs::set_permissions(rt, path, permissions)
}

/// Whether a disk over a file that may only be read takes a byte where the system opens that file to be written, and only there: a user who
/// may write any file may write this one too.
fn kept<R: Files<File = File> + AllocGlobal>(rt: &R, path: &str) -> Result<String, AllocError> {
    if keep(rt, path).is_err() {
        return ended(rt.alloc(), false);
    }
    let may_write = OpenOptions::new().write(true).open(rt, path).is_ok();
    let takes = takes_a_byte(rt, path)?;
    said(
        rt.alloc(),
        if takes == may_write {
            "written as opened"
        } else {
            "written otherwise than opened"
        },
    )
}

/// Whether there is a file of that path.
fn has<R: Files<File = File> + AllocGlobal>(rt: &R, path: &str) -> Result<String, AllocError> {
    match fs::exists(rt, path) {
        Ok(true) => said(rt.alloc(), "yes"),
        Ok(false) => said(rt.alloc(), "no"),
        Err(_) => ended(rt.alloc(), false),
    }
}

/// The bytes that the system gives of a file.
fn bytes<R: Files<File = File> + AllocGlobal>(rt: &R, path: &str) -> Result<String, AllocError> {
    match fs::read(rt, path) {
        Ok(bytes) => format!(in rt.alloc(); "{:?}", bytes.as_slice()),
        Err(_) => ended(rt.alloc(), false),
    }
}

/// What a call on a file of the folder answers that no shelf is asked of.
fn answer_of_file<R: Files<File = File> + AllocGlobal>(
    rt: &R,
    name: &str,
    rest: &str,
) -> Result<String, AllocError> {
    match name {
        "make" => ended(rt.alloc(), fs::create_dir_all(rt, rest).is_ok()),
        "stretch" => ended(rt.alloc(), stretch(rt, rest).is_ok()),
        "remove" => ended(rt.alloc(), fs::remove_file(rt, rest).is_ok()),
        "has" => has(rt, rest),
        "bytes" => bytes(rt, rest),
        "kept" => kept(rt, rest),
        _ => said(rt.alloc(), "no call"),
    }
}

/// What the call of those words answers.
pub fn answer<R: Files<File = File> + AllocGlobal>(
    rt: &R,
    words: &str,
) -> Result<String, AllocError> {
    let (name, rest) = split(words);
    match name {
        "read" => read(rt.alloc(), &mut FolderShelf::new(rt), rest),
        "length" => length(rt.alloc(), &mut FolderShelf::new(rt), rest),
        _ => answer_of_file(rt, name, rest),
    }
}
