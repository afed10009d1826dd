//! Telling which consistency conditions of TPC-C are true of a recovered journal.
ghost use Rattle.acc_commands_journals.specs.Disks.{Ends};
ghost use Rattle.acc_commands_journals.specs.VerifyFiles.{VerifiesSchema, VerifiesCertified, VerifiesFiles, TablesLeft, CertifiedLeft, VerifyLeft};

use acc_base::designs::Design;
use acc_commands_inputs::{
    Admission, CertifiedFiles, FoundSchema, ReadDesign, admit, design_refused, find_schema,
    read_design,
};
use acc_disk::Disk;
use acc_journalled::{Ended, unrun, verify_journal};
use acc_lift::Accepted;
use acc_progress::Progress;
use std::alloc::Global;

/// Recovers the journal of an accepted design, if it has TPC-C's tables, and judges the recovered rows.
fn verify_accepted<D: Disk, P: Progress>(
    alloc: Global,
    accepted: &Accepted,
    disk: D,
    progress: &mut P,
) -> Ended<D>
    ensures { Ends D.told D.may_leave D.faults (VerifiesSchema accepted.now)
        (TablesLeft D.clock D.left_since D.told D.may_leave D.faults accepted.now)
        disk result.disk result.answer result.history result.settled }
{
    match find_schema(alloc, accepted.design()) {
        Ok(FoundSchema::Found(tables)) => {
            verify_journal(alloc, accepted, &tables, disk, progress)
        }
        Ok(FoundSchema::Refused(answer)) => unrun(alloc, disk, Ok(answer)),
        Err(error) => unrun(alloc, disk, Err(error)),
    }
}

/// Recovers the journal of a design, if it is accepted with its certificate and has TPC-C's tables, and judges the recovered rows.
fn verify_design<D: Disk, P: Progress>(
    alloc: Global,
    d: Design,
    certificate: &[u8],
    disk: D,
    progress: &mut P,
) -> Ended<D>
    ensures { Ends D.told D.may_leave D.faults (VerifiesCertified d certificate.now)
        (CertifiedLeft D.clock D.left_since D.told D.may_leave D.faults d certificate.now)
        disk result.disk result.answer result.history result.settled }
{
    match admit(alloc, d, certificate) {
        Ok(Admission::Accepted(accepted)) => verify_accepted(alloc, &accepted, disk, progress),
        Ok(Admission::Refused(text)) => unrun(alloc, disk, Ok(design_refused(text))),
        Err(error) => unrun(alloc, disk, Err(error)),
    }
}

/// Recovers the journal of the design of a text, if it is accepted with its certificate and has TPC-C's tables, and tells which consistency
/// conditions are true of the recovered rows.
pub fn verify_files<D: Disk, P: Progress>(
    alloc: Global,
    files: CertifiedFiles,
    disk: D,
    progress: &mut P,
) -> Ended<D>
    ensures { Ends D.told D.may_leave D.faults (VerifiesFiles files.entry.design.now files.entry.certificate.now)
        (VerifyLeft D.clock D.left_since D.told D.may_leave D.faults files.entry.design.now files.entry.certificate.now)
        disk result.disk result.answer result.history result.settled }
{
    match read_design(alloc, files.design) {
        Ok(ReadDesign::Read(d)) => verify_design(alloc, d, files.certificate, disk, progress),
        Ok(ReadDesign::Refused(answer)) => unrun(alloc, disk, Ok(answer)),
        Err(error) => unrun(alloc, disk, Err(error)),
    }
}
