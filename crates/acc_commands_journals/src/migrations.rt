//! Making a new journal of what is recovered from an old one.
ghost use Rattle.std.specs.Prelude.{◌≤◌, ◌^◌, length};
ghost use Rattle.acc_commands_journals.specs.Disks.{Ends};
ghost use Rattle.acc_commands_journals.specs.MigrateFiles.{MigratesCertified, MigratesFiles, MadeLeft, MigrateLeft};

use acc_base::designs::Design;
use acc_commands_inputs::{
    Admission, MigrationFiles, ReadDesign, admit, design_refused, read_design,
};
use acc_disk::Disk;
use acc_journalled::{Ended, migrate_journal, unrun};
use acc_progress::Progress;
use std::alloc::Global;

/// Makes a journal of a design, if it is accepted with its certificate, of what is recovered from an old one.
fn migrate_design<D: Disk, P: Progress>(
    alloc: Global,
    d: Design,
    certificate: &[u8],
    old: &[u8],
    disk: D,
    progress: &mut P,
) -> Ended<D>
    requires short { length old.now ≤ 2 ^ 26 }
    ensures { Ends D.told D.may_leave D.faults (MigratesCertified d certificate.now old.now)
        (MadeLeft D.clock D.left_since D.told D.may_leave d certificate.now old.now)
        disk result.disk result.answer result.history result.settled }
{
    match admit(alloc, d, certificate) {
        Ok(Admission::Accepted(accepted)) => {
            migrate_journal(alloc, &accepted, old, disk, progress)
        }
        Ok(Admission::Refused(text)) => unrun(alloc, disk, Ok(design_refused(text))),
        Err(error) => unrun(alloc, disk, Err(error)),
    }
}

/// Makes a journal of the design of a text, if it is accepted with its certificate, of what is recovered from an old one, on a disk that
/// holds none.
pub fn migrate_files<D: Disk, P: Progress>(
    alloc: Global,
    files: MigrationFiles,
    disk: D,
    progress: &mut P,
) -> Ended<D>
    requires short { length files.old.now ≤ 2 ^ 26 }
    ensures { Ends D.told D.may_leave D.faults
        (MigratesFiles files.entry.design.now files.entry.certificate.now files.entry.old.now)
        (MigrateLeft D.clock D.left_since D.told D.may_leave files.entry.design.now files.entry.certificate.now files.entry.old.now)
        disk result.disk result.answer result.history result.settled }
{
    match read_design(alloc, files.design) {
        Ok(ReadDesign::Read(d)) => {
            migrate_design(alloc, d, files.certificate, files.old, disk, progress)
        }
        Ok(ReadDesign::Refused(answer)) => unrun(alloc, disk, Ok(answer)),
        Err(error) => unrun(alloc, disk, Err(error)),
    }
}
