// A file of the machine that this process has locked, and whose length it knows.
ghost use Rattle.std.specs.Prelude.{◌≤◌, length, IfOk};

use crate::trouble::Trouble;
use std::fs::{File, OpenFile, OpenOptions, TryLockError};
use std::io::{ErrorKind, Read, Seek, SeekFrom, Write};
use std::path::Path;
use std::rt::Files;
use std::{fs, io};

/// How a file is opened.
#[derive(Clone, Copy)]
pub enum Opening {
    /// Where no file is, one is made. One of two bytes or more is opened only if its first byte is one of these.
    Make(&'static [u8]),
    /// Where no file is, none is made, and an empty one is read.
    Use,
}

/// A file, the length that it had when this process was last done with it, and whether the lock on it was to be had.
#[derive(Drop)]
pub struct HeldFile {
    file: File,
    length: u64,
    pub is_locked: bool,
}

fn created<R: Files<File = File>>(rt: &R, path: &str) -> io::Result<File> {
    OpenOptions::new()
        .read(true)
        .write(true)
        .create_new(true)
        .open(rt, path)
}

// Has the folder keep the file's name.
fn keep_name<R: Files>(rt: &R, path: &str) -> io::Result<()> {
    let folder = match Path::new(path).parent() {
        Some(folder) if !folder.as_str().is_empty() => folder.as_str(),
        _ => ".",
    };
    fs::open(rt, folder)?.sync_all()
}

// The file, made where it is absent if it is to be made; none where it is absent and only to be used.
fn found<R: Files<File = File>>(rt: &R, path: &str, opening: Opening) -> io::Result<Option<File>> {
    match (
        OpenOptions::new().read(true).write(true).open(rt, path),
        opening,
    ) {
        (Ok(file), Opening::Make(_) | Opening::Use) => Ok(Some(file)),
        (Err(error), Opening::Make(_)) if error.kind() == ErrorKind::NotFound => Ok(Some(created(
            rt, path,
        )?)),
        (Err(error), Opening::Use) if error.kind() == ErrorKind::NotFound => Ok(None),
        (Err(error), Opening::Make(_) | Opening::Use) => Err(error),
    }
}

// Takes the lock on the file, which ends with the process. Where the file system has none, the file is used without.
fn is_locked(file: &File) -> Result<bool, Trouble> {
    match file.try_lock() {
        Ok(()) => Ok(true),
        Err(TryLockError::WouldBlock) => Err(Trouble::InUse),
        Err(TryLockError::Error(_)) => Ok(false),
    }
}

// Whether the file may be used as it is to be opened.
fn may_be_used(file: &mut File, opening: Opening) -> io::Result<bool> {
    let mut first = [0u8];
    match opening {
        Opening::Make(beginnings) if file.metadata()?.len() >= 2 => {
            Ok(read_from(file, 0, &mut first)? == 0 || beginnings.contains(&first[0]))
        }
        Opening::Make(_) | Opening::Use => Ok(true),
    }
}

fn read_from<F: Read + Seek>(file: &mut F, at: u64, buf: &mut [u8]) -> io::Result<usize>
    ensures { IfOk result (λ count. count ≤ length buf.old) }
{
    file.seek(SeekFrom::Start(at))?;
    let mut done = 0;
    while done < buf.len() {
        let count = file.read(&mut buf[done..])?;
        if count == 0 {
            break;
        }
        done += count;
    }
    Ok(done)
}

impl HeldFile {
    /// Opens a file and locks it, or answers none where there is none and none is to be made. Its name is kept before it is used, also
    /// where an earlier call or program made it and could not do so.
    pub fn open<R: Files<File = File>>(
        rt: &R,
        path: &str,
        opening: Opening,
    ) -> Result<Option<Self>, Trouble> {
        let Some(mut file) = found(rt, path, opening)? else {
            return Ok(None);
        };
        let is_locked = is_locked(&file)?;
        if !may_be_used(&mut file, opening)? {
            return Err(Trouble::OtherFile);
        }
        keep_name(rt, path)?;
        let length = file.metadata()?.len();
        Ok(Some(HeldFile {
            file,
            length,
            is_locked,
        }))
    }

    /// The length of the file now.
    pub fn len(&self) -> Result<u64, Trouble> {
        Ok(self.file.metadata()?.len())
    }

    /// Reads into the buffer, as many bytes as fit in it or are there from that place on.
    pub fn read(&mut self, at: u64, buf: &mut [u8]) -> Result<usize, Trouble>
        ensures { IfOk result (λ count. count ≤ length buf.old) }
    {
        Ok(read_from(&mut self.file, at, buf)?)
    }

    // That nobody else made the file longer or shorter.
    fn check_length(&self) -> Result<(), Trouble> {
        if self.len()? == self.length {
            Ok(())
        } else {
            Err(Trouble::Changed)
        }
    }

    /// Writes bytes, if the file has the length that this process left.
    pub fn write_at(&mut self, at: u64, bytes: &[u8]) -> Result<(), Trouble> {
        self.check_length()?;
        self.file.seek(SeekFrom::Start(at))?;
        self.file.write_all(bytes)?;
        self.length = self.len()?;
        Ok(())
    }

    /// Cuts the file, if it has the length that this process left.
    pub fn cut(&mut self, to: u64) -> Result<(), Trouble> {
        self.check_length()?;
        self.file.set_len(to)?;
        self.length = self.len()?;
        Ok(())
    }

    /// Has the device keep what was written.
    pub fn sync(&self) -> Result<(), Trouble> {
        Ok(self.file.sync_all()?)
    }
}
