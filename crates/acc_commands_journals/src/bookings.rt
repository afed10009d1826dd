//! Telling that no seat and no room of a recovered journal of the shipped booking design is sold twice.
ghost use Rattle.std.specs.Prelude.{◌≡◌, ◌≢◌, ◌≤◌, List, ℕ, Some, IfOk, IfSome};
ghost use Rattle.acc_base.specs.Tables.{IsInOrder};
ghost use Rattle.acc_booking.specs.Seats.{NothingOversold};
ghost use Rattle.acc_disk.specs.Crashes.{Only, IsCalm};
ghost use Rattle.acc_disk.specs.Moments.{AtAnyMoment};
ghost use Rattle.acc_booking.specs.BookingText.{booking_design};
ghost use Rattle.acc_commands_inputs.specs.Texts.{IsDesignText};
ghost use Rattle.acc_io.specs.Causes.{Rose};
ghost use Rattle.acc_journalled.specs.Recoveries.{LeavesRecovery};
ghost use Rattle.acc_journalled.specs.declared.answers.Ending.TheVariants.{Done, DiskFailed};
ghost use Rattle.acc_journalled.specs.Recovering.{RecoversJournal, TellsRecovered, LeavesTold};
ghost use Rattle.acc_journalled.specs.Tellings.{telling_of};
ghost use Rattle.acc_print.specs.Designs.{printed};
ghost use Rattle.acc_store.specs.Rows.{SumsFit};
ghost use Rattle.acc_commands_journals.specs.BookingFiles.{seats_text, say_seats, BooksSchema, BooksCertified, BooksFiles, ShippedLeft};
ghost use Rattle.acc_commands_journals.specs.Disks.{Ends};
ghost use Rattle.acc_commands_journals.specs.RecoverFiles.{AcceptedLeft, RecoverLeft};

use acc_base::designs::Design;
use acc_base::tables::Plain;
use acc_booking::{BookError, check};
use acc_commands_inputs::{
    Admission, CertifiedFiles, FoundBooking, ReadDesign, admit, design_refused, find_booking,
    read_design,
};
use acc_disk::Disk;
use acc_journalled::{Answer, Ended, Ending, recover_sealed, unrun};
use acc_lift::Accepted;
use acc_progress::Progress;
use acc_recover::Recovered;
use acc_store::{Store, StoreError};
use std::alloc::{AllocError, Global};

/// Says that no seat and no room is sold twice.
fn told_true(alloc: Global) -> Result<Answer, AllocError>
    ensures { IfOk result (λ a. (a.ending ≡ Done) × (a.text.items ≡ seats_text)) }
{
    Ok(Answer {
        ending: Ending::Done,
        text: b"seats true\nrooms true\n".to_vec(alloc)?,
    })
}

/// Looks at rows of which nothing is oversold, and says so.
fn judge_seats(alloc: Global, rows: &Plain) -> Result<Answer, AllocError>
    requires order { IsInOrder rows.now.rows }
    requires fits { SumsFit rows.now.rows }
    requires law { NothingOversold rows.now.rows }
    ensures { IfOk result (λ a. (a.ending ≡ Done) × (a.text.items ≡ seats_text)) }
{
    match check(rows) {
        Ok(None) => told_true(alloc),
        Ok(Some(_)) => unreachable!(),
        Err(BookError::Memory) => Err(AllocError),
    }
}

/// Looks at the rows of a store of which nothing is oversold, and says so.
fn judge_store<S: Store>(alloc: Global, store: &S) -> Result<Answer, AllocError>
    requires order { IsInOrder (S.rows store.now) }
    requires fits { SumsFit (S.rows store.now) }
    requires law { NothingOversold (S.rows store.now) }
    ensures { IfOk result (λ a. (a.ending ≡ Done) × (a.text.items ≡ seats_text)) }
{
    match store.rows(alloc) {
        Ok(rows) => judge_seats(alloc, &rows),
        Err(StoreError::Memory) => Err(AllocError),
    }
}

/// Recovers the journal of the shipped booking design as `recover_journal` does, and looks whether more of the recovered rows is sold than
/// there is; by the law of the design none is. What it and a crash in it leave is what `recover_journal` leaves.
fn book_journal<D: Disk, P: Progress>(
    alloc: Global,
    d: &Accepted,
    disk: D,
    progress: &mut P,
) -> Ended<D>
    requires shipped { d.now ≡ booking_design }
    ensures answer { IfOk result.answer (λ a. RecoversJournal (say_seats d.now) d.now (D.told disk) (D.told result.disk)
        (Rose (D.faults disk) (D.faults result.disk)) (telling_of a result.history result.settled)) }
    ensures recorded { TellsRecovered (say_seats d.now) d.now (D.told disk) (D.told result.disk)
        (Rose (D.faults disk) (D.faults result.disk)) result.history result.settled }
    ensures moments { (file : List ℕ) → D.told disk ≡ Some file → Only file (D.may_leave disk)
        → AtAnyMoment D.clock D.left_since disk result.disk (LeavesRecovery d.now file) }
    ensures left { (file : List ℕ) → D.told disk ≡ Some file → Only file (D.may_leave disk)
        → IfSome (D.told result.disk) (LeavesRecovery d.now file) }
    ensures behind { (file : List ℕ) → D.told disk ≡ Some file → Only file (D.may_leave disk)
        → (image : List ℕ) → D.may_leave result.disk image → LeavesTold d.now result.history image }
    ensures calm { IfOk result.answer (λ a. a.ending ≢ DiskFailed → IsCalm (D.told disk) (D.may_leave disk)
        → IsCalm (D.told result.disk) (D.may_leave result.disk)) }
    ensures faults { D.faults disk ≤ D.faults result.disk }
{
    match recover_sealed(alloc, d, disk, progress) {
        Ok(found) => {
            let Recovered { state, wal, .. } = found;
            let (store, history) = state.into_parts();
            Ended {
                disk: wal.give_back(),
                settled: history.len() as u64,
                history,
                answer: judge_store(alloc, &store),
            }
        }
        Err(ended) => ended,
    }
}

/// Recovers the journal of an accepted design, if it is the shipped booking design, and looks whether more is sold than there is.
fn book_accepted<D: Disk, P: Progress>(
    alloc: Global,
    accepted: &Accepted,
    disk: D,
    progress: &mut P,
) -> Ended<D>
    requires spelled { IsDesignText (printed accepted.now) accepted.now }
    ensures { Ends D.told D.may_leave D.faults (BooksSchema accepted.now)
        (ShippedLeft D.clock D.left_since D.told D.may_leave D.faults accepted.now)
        disk result.disk result.answer result.history result.settled }
{
    match find_booking(alloc, accepted.design()) {
        Ok(FoundBooking::Found) => book_journal(alloc, accepted, disk, progress),
        Ok(FoundBooking::Refused(answer)) => unrun(alloc, disk, Ok(answer)),
        Err(error) => unrun(alloc, disk, Err(error)),
    }
}

/// Recovers the journal of a design, if it is accepted with its certificate and is the shipped booking design, and looks whether more is
/// sold than there is.
fn book_design<D: Disk, P: Progress>(
    alloc: Global,
    d: Design,
    certificate: &[u8],
    disk: D,
    progress: &mut P,
) -> Ended<D>
    requires spelled { IsDesignText (printed d) d }
    ensures { Ends D.told D.may_leave D.faults (BooksCertified d certificate.now)
        (AcceptedLeft D.clock D.left_since D.told D.may_leave D.faults say_seats d certificate.now)
        disk result.disk result.answer result.history result.settled }
{
    match admit(alloc, d, certificate) {
        Ok(Admission::Accepted(accepted)) => book_accepted(alloc, &accepted, disk, progress),
        Ok(Admission::Refused(text)) => unrun(alloc, disk, Ok(design_refused(text))),
        Err(error) => unrun(alloc, disk, Err(error)),
    }
}

/// Recovers the journal of the design of a text, if it is accepted with its certificate and is the shipped booking design, and tells that
/// no seat and no room of the recovered rows is sold twice.
pub fn book_files<D: Disk, P: Progress>(
    alloc: Global,
    files: CertifiedFiles,
    disk: D,
    progress: &mut P,
) -> Ended<D>
    ensures { Ends D.told D.may_leave D.faults (BooksFiles files.entry.design.now files.entry.certificate.now)
        (RecoverLeft D.clock D.left_since D.told D.may_leave D.faults say_seats files.entry.design.now files.entry.certificate.now)
        disk result.disk result.answer result.history result.settled }
{
    match read_design(alloc, files.design) {
        Ok(ReadDesign::Read(d)) => book_design(alloc, d, files.certificate, disk, progress),
        Ok(ReadDesign::Refused(answer)) => unrun(alloc, disk, Ok(answer)),
        Err(error) => unrun(alloc, disk, Err(error)),
    }
}
