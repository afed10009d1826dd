//! Making a journal.
ghost use Rattle.std.specs.Prelude.{◌≤◌, ◌^◌, length};
ghost use Rattle.acc_commands_journals.specs.Disks.{Ends};
ghost use Rattle.acc_commands_journals.specs.InitFiles.{InitsFile, InitLeft};

use acc_commands_inputs::{ReadDesign, read_design};
use acc_disk::Disk;
use acc_journalled::{Ended, init_journal, unrun};
use std::alloc::Global;

/// Makes a journal for the design of a text, on a disk that holds none.
pub fn init_file<D: Disk>(alloc: Global, design: &[u8], disk: D) -> Ended<D>
    requires short { length design.now ≤ 2 ^ 26 }
    ensures { Ends D.told D.may_leave D.faults (InitsFile design.now) (InitLeft D.clock D.left_since D.told D.may_leave design.now)
        disk result.disk result.answer result.history result.settled }
{
    match read_design(alloc, design) {
        Ok(ReadDesign::Read(d)) => init_journal(alloc, &d, disk),
        Ok(ReadDesign::Refused(answer)) => unrun(alloc, disk, Ok(answer)),
        Err(error) => unrun(alloc, disk, Err(error)),
    }
}
