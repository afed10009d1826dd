// What a shelf counts of its reads.
ghost use Rattle.std.specs.Prelude.{◌≡◌, ◌≤◌};
ghost use Rattle.acc_io.specs.Counted.{none_counted, after_read};

use crate::ShelfError;

/// The reads of a shelf. They are numbered from 1 on, and each number stands still at 2^64 - 1.
#[derive(Clone, Copy)]
pub struct Counts {
    /// How many reads were made, which is the number of the last.
    pub reads: u64,
    /// How many failed.
    pub faults: u64,
    /// How many missed their file, which was absent or too long.
    pub absences: u64,
    /// The number of the last one that failed, 0 where none did.
    pub last_fault: u64,
    /// The number of the last one that missed its file, 0 where none did.
    pub last_absence: u64,
}

impl Counts {
    /// No read.
    pub fn none() -> Self
        ensures { result ≡ none_counted }
    {
        Counts {
            reads: 0,
            faults: 0,
            absences: 0,
            last_fault: 0,
            last_absence: 0,
        }
    }

    /// Counts one more read, with its answer.
    pub fn add(&mut self, answer: &Result<Vec<u8>, ShelfError>)
        ensures counted { self.new ≡ after_read self.old answer.now }
        ensures faults { self.old.faults ≤ self.new.faults }
        ensures absences { self.old.absences ≤ self.new.absences }
    {
        self.reads = self.reads.saturating_add(1);
        match answer {
            Err(ShelfError::Failed) => {
                self.faults = self.faults.saturating_add(1);
                self.last_fault = self.reads;
            }
            Err(ShelfError::Absent | ShelfError::Long(_)) => {
                self.absences = self.absences.saturating_add(1);
                self.last_absence = self.reads;
            }
            Err(ShelfError::Memory) | Ok(_) => {}
        }
    }
}
