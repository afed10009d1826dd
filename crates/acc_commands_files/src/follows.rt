//! Following a journal's bytes by a design and its certificate.
ghost use Rattle.std.specs.Prelude.{◌≡◌, ◌≢◌, ◌≤◌, ◌<◌, ◌++◌, [], ℕ, List, Some, IfOk, false};
ghost use Rattle.acc_page.specs.Written.{Adds};
ghost use Rattle.acc_commands_inputs.specs.Answers.{said_alone};
ghost use Rattle.acc_commands_inputs.specs.Text.{Says};
ghost use Rattle.acc_journalled.specs.declared.answers.Ending.TheVariants.{Done};
ghost use Rattle.acc_replica.specs.Ends.{Ends};
ghost use Rattle.acc_replica.specs.Replicas.{Follows};
ghost use Rattle.acc_replica.specs.declared.errors.ReplicaError.TheVariants.{Memory};
ghost use Rattle.acc_commands_files.specs.Following.{counts_text, state_text, SaysPast, SaysUnfollowed, SaysEnd, IsReplayed, FollowsCopy};
ghost use Rattle.acc_commands_files.specs.Following.{FollowsCertified, FollowsFiles};

use crate::pages::finished;
use acc_base::designs::Design;
use acc_commands_inputs::{Admission, FollowFiles, ReadDesign, admit, design_refused, read_design};
use acc_dump::dump;
use acc_journalled::{Answer, Ending, IndexStore, empty_rows, not_recovered, one_line};
use acc_lift::Accepted;
use acc_page::Page;
use acc_recover::RecoverError;
use acc_replica::{Replica, ReplicaError};
use acc_store::Store;
use acc_wal::WalError;
use std::alloc::{AllocError, Global};

/// Why a replica doesn't go on, unless memory ran out.
fn refusal_of(error: ReplicaError) -> Result<Option<ReplicaError>, AllocError>
    ensures { IfOk result (λ refused. (refused ≡ Some error) × (error ≢ Memory)) }
{
    match error {
        ReplicaError::NotJournal | ReplicaError::OtherVersion(_) | ReplicaError::OtherDesign => {
            Ok(Some(error))
        }
        ReplicaError::Damaged(_) | ReplicaError::Past(_) => Ok(Some(error)),
        ReplicaError::Unlawful(_) | ReplicaError::Differs(_) => Ok(Some(error)),
        ReplicaError::Memory => Err(AllocError),
    }
}

/// Does what came whole, up to its end or to the first item that is refused: that refusal is answered. Behind one it does nothing, and
/// answers the same.
fn do_whole<S: Store>(replica: &mut Replica<S>) -> Result<Option<ReplicaError>, AllocError>
    ensures design { replica.new.design ≡ replica.old.design }
    ensures follows { (fed : List ℕ) → Follows fed replica.old → Follows fed replica.new }
    ensures ends { IfOk result (λ refused. (fed : List ℕ) → Follows fed replica.old
        → Ends replica.old.design fed refused replica.new.world) }
{
    match replica.advance_all() {
        Ok(()) => Ok(None),
        Err(error) => refusal_of(error),
    }
}

/// Feeds the next piece, and does what came whole by it. A refusal stays, and is told at the end.
fn follow_piece<S: Store>(replica: &mut Replica<S>, piece: &[u8]) -> Result<(), AllocError>
    ensures design { replica.new.design ≡ replica.old.design }
    ensures follows { IfOk result (λ done. (fed : List ℕ) → Follows fed replica.old → Follows (fed ++ piece.now) replica.new) }
{
    match replica.feed(piece) {
        Ok(()) => {}
        Err(_) => return Err(AllocError),
    }
    do_whole(replica)?;
    Ok(())
}

/// How many bytes the next piece has, where so many are left: as many as are asked for, or all that are left. No words ask for pieces
/// without a byte; they are read as one piece.
fn piece_len(size: u64, left: usize) -> usize
    requires { 0 < left }
    ensures some { 0 < result }
    ensures few { result ≤ left }
{
    if size == 0 || size > left as u64 {
        left
    } else {
        size as usize
    }
}

/// Feeds bytes piece by piece, and behind each does what came whole.
fn follow_pieces<S: Store>(
    replica: &mut Replica<S>,
    copy: &[u8],
    size: u64,
) -> Result<(), AllocError>
    requires { Follows [] replica.old }
    ensures design { replica.new.design ≡ replica.old.design }
    ensures follows { IfOk result (λ done. Follows copy.now replica.new) }
{
    let mut rest = copy;
    while !rest.is_empty() {
        let (piece, behind) = rest.split_at(piece_len(size, rest.len()));
        follow_piece(replica, piece)?;
        rest = behind;
    }
    Ok(())
}

/// How many events are done, and how many transactions are unfinished behind them.
fn push_counts(out: &mut Page, events: u64, unfinished: u64)
    ensures { Adds out.old out.new (counts_text events unfinished) }
{
    out.push(b"events ");
    out.push_number(events);
    out.push(b" unfinished ");
    out.push_number(unfinished);
    out.push(b"\n");
}

/// The same, and the rows.
fn state_page(alloc: Global, events: u64, unfinished: u64, rows: &[u8]) -> Page
    ensures { result.cut ≡ false → result.text ≡ counts_text events unfinished ++ rows.now }
{
    let mut text = Page::new(alloc);
    push_counts(&mut text, events, unfinished);
    text.push(rows);
    text
}

/// Says how many events are done, how many transactions are unfinished, and the rows.
fn say_state(
    alloc: Global,
    d: &Design,
    events: u64,
    unfinished: u64,
    rows: &IndexStore,
) -> Result<Answer, AllocError>
    ensures { IfOk result (λ a. Says Done (state_text d.now events unfinished rows.now) (said_alone a)) }
{
    let rows = dump(alloc, d, rows)?;
    finished(state_page(alloc, events, unfinished, &rows), Ending::Done)
}

/// Says that a byte stands behind a gate that isn't open.
fn say_past(alloc: Global, place: u64) -> Result<Answer, AllocError>
    ensures { IfOk result (λ a. SaysPast place (said_alone a)) }
{
    let text = format!(in alloc; "refused journal past {place}")?;
    one_line(alloc, Ending::JournalRefused, text.as_str())
}

/// Says why a journal isn't followed on.
fn say_unfollowed(alloc: Global, error: ReplicaError) -> Result<Answer, AllocError>
    ensures { IfOk result (λ a. SaysUnfollowed error (said_alone a)) }
{
    match error {
        ReplicaError::NotJournal => {
            not_recovered(alloc, RecoverError::Journal(WalError::NotJournal))
        }
        ReplicaError::OtherVersion(version) => {
            not_recovered(
                alloc,
                RecoverError::Journal(WalError::OtherVersion(version)),
            )
        }
        ReplicaError::OtherDesign => not_recovered(alloc, RecoverError::OtherDesign),
        ReplicaError::Damaged(place) => {
            not_recovered(alloc, RecoverError::Journal(WalError::Damaged(place)))
        }
        ReplicaError::Past(place) => say_past(alloc, place),
        ReplicaError::Unlawful(at) => not_recovered(alloc, RecoverError::Unlawful(at)),
        ReplicaError::Differs(place) => not_recovered(alloc, RecoverError::Differs(place)),
        ReplicaError::Memory => Err(AllocError),
    }
}

/// Says what a replica came to.
fn say_end(
    alloc: Global,
    d: &Design,
    replica: &Replica<IndexStore>,
    refused: Option<ReplicaError>,
) -> Result<Answer, AllocError>
    ensures says { IfOk result (λ a. SaysEnd d.now replica.now.world refused (said_alone a)) }
    ensures replayed { IsReplayed replica.now.design replica.now.world }
{
    let events = replica.done();
    let unfinished = replica.unfinished();
    match refused {
        Some(error) => say_unfollowed(alloc, error),
        None => say_state(alloc, d, events, unfinished, replica.store()),
    }
}

/// A replica of an accepted design, to which nothing was fed.
fn new_replica<'a>(
    alloc: Global,
    accepted: &'a Accepted,
) -> Result<Replica<'a, IndexStore>, AllocError>
    ensures design { IfOk result (λ r. r.design ≡ accepted.now) }
    ensures follows { IfOk result (Follows []) }
{
    let rows = empty_rows(alloc, accepted).ok_or(AllocError)?;
    match Replica::new(alloc, accepted, rows) {
        Ok(replica) => Ok(replica),
        Err((_, _)) => Err(AllocError),
    }
}

/// Follows a journal's bytes, fed in pieces of so many, by an accepted design.
fn follow_accepted(
    alloc: Global,
    accepted: &Accepted,
    copy: &[u8],
    size: u64,
) -> Result<Answer, AllocError>
    ensures { IfOk result (λ a. FollowsCopy accepted.now copy.now (said_alone a)) }
{
    let mut replica = new_replica(alloc, accepted)?;
    follow_pieces(&mut replica, copy, size)?;
    let refused = do_whole(&mut replica)?;
    say_end(alloc, accepted.design(), &replica, refused)
}

/// Follows a journal's bytes by a design, if it is accepted with its certificate.
fn follow_design(
    alloc: Global,
    d: Design,
    certificate: &[u8],
    copy: &[u8],
    size: u64,
) -> Result<Answer, AllocError>
    ensures { IfOk result (λ a. FollowsCertified d certificate.now copy.now (said_alone a)) }
{
    match admit(alloc, d, certificate)? {
        Admission::Accepted(accepted) => follow_accepted(alloc, &accepted, copy, size),
        Admission::Refused(text) => Ok(design_refused(text)),
    }
}

/// Follows a journal's bytes, fed in pieces of so many, by the design of a text, if it is accepted with its certificate: tells how many
/// events are done of the batches that came whole, how many transactions are unfinished behind them, and the rows. No journal is written. A
/// journal that is cut anywhere is followed as far as it came whole.
pub fn follow_files(alloc: Global, files: FollowFiles, size: u64) -> Result<Answer, AllocError>
    ensures { IfOk result (λ a. FollowsFiles files.entry.design.now files.entry.certificate.now files.entry.copy.now (said_alone a)) }
{
    match read_design(alloc, files.design)? {
        ReadDesign::Read(d) => follow_design(alloc, d, files.certificate, files.copy, size),
        ReadDesign::Refused(answer) => Ok(answer),
    }
}
