//! Recovering a journal.
ghost use Rattle.acc_journalled.specs.Recovering.{text_of};
ghost use Rattle.acc_commands_journals.specs.Disks.{Ends};
ghost use Rattle.acc_commands_journals.specs.RecoverFiles.{RecoversCertified, RecoversFiles, AcceptedLeft, RecoverLeft};

use acc_base::designs::Design;
use acc_commands_inputs::{
    Admission, CertifiedFiles, ReadDesign, admit, design_refused, read_design,
};
use acc_disk::Disk;
use acc_journalled::{Ended, Wanted, recover_journal, unrun};
use acc_progress::Progress;
use std::alloc::Global;

/// Recovers the journal of a design, if it is accepted with its certificate.
fn recover_design<D: Disk, P: Progress>(
    alloc: Global,
    d: Design,
    certificate: &[u8],
    wanted: Wanted,
    disk: D,
    progress: &mut P,
) -> Ended<D>
    ensures { Ends D.told D.may_leave D.faults (RecoversCertified (text_of wanted) d certificate.now)
        (AcceptedLeft D.clock D.left_since D.told D.may_leave D.faults (text_of wanted) d certificate.now)
        disk result.disk result.answer result.history result.settled }
{
    match admit(alloc, d, certificate) {
        Ok(Admission::Accepted(accepted)) => {
            recover_journal(alloc, &accepted, wanted, disk, progress)
        }
        Ok(Admission::Refused(text)) => unrun(alloc, disk, Ok(design_refused(text))),
        Err(error) => unrun(alloc, disk, Err(error)),
    }
}

/// Recovers the journal of the design of a text, if it is accepted with its certificate.
pub fn recover_files<D: Disk, P: Progress>(
    alloc: Global,
    files: CertifiedFiles,
    wanted: Wanted,
    disk: D,
    progress: &mut P,
) -> Ended<D>
    ensures { Ends D.told D.may_leave D.faults (RecoversFiles (text_of wanted) files.entry.design.now files.entry.certificate.now)
        (RecoverLeft D.clock D.left_since D.told D.may_leave D.faults (text_of wanted) files.entry.design.now files.entry.certificate.now)
        disk result.disk result.answer result.history result.settled }
{
    match read_design(alloc, files.design) {
        Ok(ReadDesign::Read(d)) => {
            recover_design(alloc, d, files.certificate, wanted, disk, progress)
        }
        Ok(ReadDesign::Refused(answer)) => unrun(alloc, disk, Ok(answer)),
        Err(error) => unrun(alloc, disk, Err(error)),
    }
}
