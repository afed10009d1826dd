// A file of the machine as a disk. It tells no content.
ghost use Rattle.std.specs.Prelude.{◌≡◌, ◌≤◌, length, None, Ok, IfOk};
ghost use Rattle.acc_disk.specs.Faults.{CountsFault};

use crate::Disk;
use crate::held_file::{HeldFile, Opening};
use crate::trouble::Trouble;
use acc_io::Failed;
use std::fs::File;
use std::io;
use std::io::ErrorKind;
use std::rt::Files;

/// A file of the machine, which is opened and locked at the first call, and stays locked as long as it is held: a second process that asks
/// for it finds `Trouble::InUse`, and changes nothing. A call that can't be done answers `Failed` and is counted, and `trouble` tells why
/// the first one failed.
///
/// Its clauses tell no content: what a machine's file holds between two calls no contract can say.
#[derive(Drop)]
pub struct FileDisk<'a, R: Files<File = File>> {
    rt: &'a R,
    path: String,
    opening: Opening,
    held: Option<HeldFile>,
    trouble: Option<Trouble>,
    failed: u64,
}

impl<'a, R: Files<File = File>> FileDisk<'a, R> {
    /// The file at that path, of which nothing was asked yet.
    pub fn new(rt: &'a R, path: String, opening: Opening) -> Self
        ensures { ⟦<FileDisk<'a, R> as Disk>⟧.faults result ≡ 0 }
    {
        FileDisk {
            rt,
            path,
            opening,
            held: None,
            trouble: None,
            failed: 0,
        }
    }

    /// Why the first call that failed did so.
    pub fn trouble(&self) -> Option<&Trouble> {
        self.trouble.as_ref()
    }

    /// Whether it was opened without a lock, since the file system has none.
    pub fn is_unlocked(&self) -> bool {
        match &self.held {
            Some(held) => !held.is_locked,
            None => false,
        }
    }
}

// The file, opened where it isn't yet; none where there is none and none is to be made.
fn ready<'f, R: Files<File = File>>(
    rt: &R,
    path: &str,
    opening: Opening,
    held: &'f mut Option<HeldFile>,
) -> Result<Option<&'f mut HeldFile>, Trouble> {
    if held.is_none() {
        *held = HeldFile::open(rt, path, opening)?;
    }
    Ok(held.as_mut())
}

// The file, which has to be there.
fn there<'f, R: Files<File = File>>(
    rt: &R,
    path: &str,
    opening: Opening,
    held: &'f mut Option<HeldFile>,
) -> Result<&'f mut HeldFile, Trouble> {
    match ready(rt, path, opening, held)? {
        Some(held) => Ok(held),
        None => Err(Trouble::Machine(io::Error::from(ErrorKind::NotFound))),
    }
}

// A call that can't be done is counted, and why the first one can't is kept.
fn counted<T: Drop>(
    outcome: Result<T, Trouble>,
    trouble: &mut Option<Trouble>,
    failed: &mut u64,
) -> Result<T, Failed>
    ensures same { IfOk result (λ answer. outcome ≡ Ok answer) }
    ensures faults { CountsFault result failed.old failed.new }
{
    match outcome {
        Ok(answer) => Ok(answer),
        Err(why) => {
            if trouble.is_none() {
                *trouble = Some(why);
            }
            *failed = failed.saturating_add(1);
            Err(Failed)
        }
    }
}

impl<R: Files<File = File>> Disk for FileDisk<'_, R> {
    ghost clock = { λ _. 0 };

    ghost told = { λ _. None };

    ghost may_leave = { λ _ _. Unit {0} };

    ghost left_since = { λ _ _ _. Unit {0} };

    ghost faults = { λ disk. disk.failed };

    ghost nothing_lost = { λ _. tt };

    ghost counts_now = { λ _ _ _ _ _. tt };

    ghost only_now = { λ _ _ _. tt };

    ghost earlier = { λ _ _ _ _ _ _. tt };

    ghost fits = { λ disk. tt };

    fn len(&mut self) -> Result<u64, Failed> {
        let outcome = match ready(self.rt, &self.path, self.opening, &mut self.held) {
            Ok(Some(held)) => held.len(),
            Ok(None) => Ok(0),
            Err(why) => Err(why),
        };
        counted(outcome, &mut self.trouble, &mut self.failed)
    }

    fn read(&mut self, at: u64, buf: &mut [u8]) -> Result<usize, Failed> {
        let outcome = match ready(self.rt, &self.path, self.opening, &mut self.held) {
            Ok(Some(held)) => held.read(at, buf),
            Ok(None) => Ok(0),
            Err(why) => Err(why),
        };
        counted(outcome, &mut self.trouble, &mut self.failed)
    }

    fn write_at(&mut self, at: u64, bytes: &[u8]) -> Result<(), Failed> {
        let outcome = match there(self.rt, &self.path, self.opening, &mut self.held) {
            Ok(held) => held.write_at(at, bytes),
            Err(why) => Err(why),
        };
        counted(outcome, &mut self.trouble, &mut self.failed)
    }

    fn cut(&mut self, to: u64) -> Result<(), Failed> {
        let outcome = match there(self.rt, &self.path, self.opening, &mut self.held) {
            Ok(held) => held.cut(to),
            Err(why) => Err(why),
        };
        counted(outcome, &mut self.trouble, &mut self.failed)
    }

    fn sync(&mut self) -> Result<(), Failed> {
        let outcome = match there(self.rt, &self.path, self.opening, &mut self.held) {
            Ok(held) => held.sync(),
            Err(why) => Err(why),
        };
        counted(outcome, &mut self.trouble, &mut self.failed)
    }
}
