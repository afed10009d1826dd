//! Making a new journal of what an old one holds.
ghost use Rattle.std.specs.Prelude.{◌≡◌, ◌≢◌, ◌≤◌, ◌<◌, ◌^◌, List, ℕ, length, Option, Some, IfOk, IfErr, IfSome, OnOk};
ghost use Rattle.std.specs.Option.{option_map};
ghost use Rattle.acc_base.specs.Annotated.{IsIdle};
ghost use Rattle.acc_base.specs.Tables.{IsInOrder};
ghost use Rattle.acc_base.specs.declared.designs.Design.{Design};
ghost use Rattle.acc_io.specs.Causes.{Rose};
ghost use Rattle.acc_print.specs.Designs.{printed};
ghost use Rattle.acc_ckpt.specs.Texts.{IsCounted};
ghost use Rattle.acc_disk.specs.Crashes.{Only, IsCalm};
ghost use Rattle.acc_disk.specs.Moments.{AtAnyMoment};
ghost use Rattle.acc_engine.specs.Sealing.{TellsShort};
ghost use Rattle.acc_lift.specs.Acceptance.{IsAccepted};
ghost use Rattle.acc_recover.specs.Answers.{RecoversFile};
ghost use Rattle.acc_recover.specs.Refusals.{RefusesRecovery};
ghost use Rattle.acc_journalled.specs.declared.answers.Ending.TheVariants.{Done, DiskFailed};
ghost use Rattle.acc_journalled.specs.Tellings.{telling_of};
ghost use Rattle.acc_journalled.specs.Migrating.{text_to_put, migrated_text, BeginsWith, MigratesJournal, TellsMigrated, LeavesMigrated};

use crate::answers::{Answer, Ended, Ending, unrun};
use crate::lines::{not_made, not_recovered};
use crate::rows::empty_rows;
use acc_base::machines::Event;
use acc_base::sequences::Seq;
use acc_base::tables::Plain;
use acc_ckpt::{CkptError, text, text_len};
use acc_disk::{Disk, MemDisk};
use acc_engine::LONGEST_SEAL;
use acc_index_store::IndexStore;
use acc_lift::Accepted;
use acc_machine::State;
use acc_print::{PrintError, print};
use acc_progress::Progress;
use acc_recover::{RecoverError, Recovered, recover};
use acc_store::{Store, StoreError};
use acc_wal::Wal;
use std::alloc::{AllocError, Global};

/// Why nothing is recovered from bytes in memory, whose disk fails only where memory runs out.
fn in_memory(error: RecoverError) -> RecoverError
    ensures { (d : Design) (told : Option (List ℕ)) (before after : ℕ) → RefusesRecovery d error told (Rose before after)
        → RefusesRecovery d result told ⊥ }
{
    match error {
        RecoverError::Disk => RecoverError::Memory,
        RecoverError::Journal(_)
        | RecoverError::OtherDesign
        | RecoverError::Unlawful(_)
        | RecoverError::Differs(_)
        | RecoverError::Memory => error,
    }
}

/// Recovers a journal of these bytes in memory, and leaves the bytes as they are.
fn recover_bytes<'a, P: Progress>(
    alloc: Global,
    d: &'a Accepted,
    old: &[u8],
    progress: &mut P,
) -> Result<Recovered<'a, IndexStore, MemDisk>, RecoverError>
    ensures ok { IfOk result (λ r. RecoversFile d.now (Some old.now) r.state.world r.wal r.compensated) }
    ensures idle { IfOk result (λ r. IsIdle d.now r.state.world.rows) }
    ensures design { IfOk result (λ r. r.state.design ≡ d.now) }
    ensures why { IfErr result (λ error. RefusesRecovery d.now error (Some old.now) ⊥) }
{
    let Some(rows) = empty_rows(alloc, d) else {
        return Err(RecoverError::Memory);
    };
    let Ok(disk) = MemDisk::new(alloc, old, &[], None) else {
        return Err(RecoverError::Memory);
    };
    match recover(alloc, d, rows, disk, progress) {
        Ok(found) => Ok(found),
        Err((error, _, _)) => Err(in_memory(error)),
    }
}

/// The text of rows, unless it is too long to be put. Then none is made.
fn short_text(alloc: Global, rows: &Plain) -> Result<Option<Seq<u8>>, AllocError>
    requires order { IsInOrder rows.now.rows }
    requires counts { IsCounted rows.now.rows }
    ensures { IfOk result (TellsShort rows.now.rows) }
{
    if text_len(rows) > LONGEST_SEAL {
        return Ok(None);
    }
    match text(alloc, rows) {
        Ok(text) => Ok(Some(Seq::from_vec(text))),
        Err(CkptError::Memory) => Err(AllocError),
        Err(CkptError::NotState) => unreachable!(),
    }
}

/// The text of a state's rows, where it isn't too long to be put.
fn text_to_put(alloc: Global, state: &State<IndexStore>) -> Result<Option<Seq<u8>>, AllocError>
    ensures { IfOk result (λ text. text ≡ text_to_put state.now.world) }
{
    let _events = state.events();
    match state.store().rows(alloc) {
        Ok(rows) => short_text(alloc, &rows),
        Err(StoreError::Memory) => Err(AllocError),
    }
}

/// What a new journal begins with: its base text, its events, and the text of the rows behind them, where that isn't too long; and what is
/// said once it is there.
#[derive(Drop)]
struct Beginning {
    base: Vec<u8>,
    history: Seq<Event>,
    text: Option<Seq<u8>>,
    said: Answer,
}

/// What is said of a new journal with the events of this state.
fn migrated(alloc: Global, state: &State<IndexStore>) -> Result<Answer, AllocError>
    ensures { IfOk result (λ a. (a.ending ≡ Done) × (a.text.items ≡ migrated_text state.now.world)) }
{
    let events = state.events().len();
    Ok(Answer {
        ending: Ending::Done,
        text: format!(in alloc; "migrated {events}\n")?.into_bytes(),
    })
}

/// What a new journal begins with that is made of a recovered state.
fn begin_with(
    alloc: Global,
    d: &Accepted,
    state: State<IndexStore>,
) -> Result<Beginning, AllocError>
    ensures base { IfOk result (λ b. b.base.items ≡ printed d.now) }
    ensures history { IfOk result (λ b. b.history ≡ state.entry.world.events) }
    ensures text { IfOk result (λ b. b.text ≡ text_to_put state.entry.world) }
    ensures said { IfOk result (λ b. (b.said.ending ≡ Done) × (b.said.text.items ≡ migrated_text state.entry.world)) }
    ensures accepted { OnOk result (IsAccepted d.now) }
{
    let base = match print(alloc, d.design()) {
        Ok(base) => base,
        Err(PrintError::Memory) => return Err(AllocError),
    };
    let text = text_to_put(alloc, &state)?;
    let said = migrated(alloc, &state)?;
    let (_, history) = state.into_parts();
    Ok(Beginning {
        base,
        history,
        text,
        said,
    })
}

/// What a new journal begins with that is made of an old journal's bytes, or why there is none.
fn begin_from<P: Progress>(
    alloc: Global,
    d: &Accepted,
    old: &[u8],
    progress: &mut P,
) -> Result<Beginning, RecoverError>
    ensures ok { IfOk result (λ b. BeginsWith d.now old.now b.base.items b.history b.text b.said) }
    ensures accepted { OnOk result (IsAccepted d.now) }
    ensures why { IfErr result (λ error. RefusesRecovery d.now error (Some old.now) ⊥) }
{
    let found = match recover_bytes(alloc, d, old, progress) {
        Ok(found) => found,
        Err(error) => return Err(error),
    };
    let Recovered { state, .. } = found;
    match begin_with(alloc, d, state) {
        Ok(beginning) => Ok(beginning),
        Err(_) => Err(RecoverError::Memory),
    }
}

/// The bytes of a text, if there is one.
fn bytes_of(text: &Option<Seq<u8>>) -> Option<&[u8]>
    ensures { option_map (λ bytes. bytes.now) result ≡ text.now }
{
    match text {
        Some(text) => Some(text.as_slice()),
        None => None,
    }
}

/// Makes a journal on a disk that holds none, of what recovery makes of the old journal of an accepted design, whose bytes are these, of
/// either version: its events are done again in memory, what they leave unfinished is compensated, and the new journal, of the design's
/// printed text, begins with the recovered history, and behind it the text of the rows, where that isn't too long. It says how many events
/// there are.
///
/// The refusals are those of the old bytes, as `recover_journal` refuses a journal, and then that a journal is there already; at each the
/// disk holds what it held. From a calm disk a crash at any moment leaves no journal, the whole new one, or the disk's bytes with another
/// first byte. The disk is calm again, unless one of its calls failed. No event is told where none was made durable.
pub fn migrate_journal<D: Disk, P: Progress>(
    alloc: Global,
    d: &Accepted,
    old: &[u8],
    disk: D,
    progress: &mut P,
) -> Ended<D>
    requires short { length old.now ≤ 2 ^ 26 }
    ensures answer { IfOk result.answer (λ a. MigratesJournal d.now old.now (D.told disk) (D.told result.disk)
        (Rose (D.faults disk) (D.faults result.disk)) (telling_of a result.history result.settled)) }
    ensures recorded { TellsMigrated d.now old.now (D.told disk) (D.told result.disk) result.history result.settled }
    ensures moments { (file : List ℕ) → D.told disk ≡ Some file → Only file (D.may_leave disk)
        → AtAnyMoment D.clock D.left_since disk result.disk (LeavesMigrated d.now old.now file) }
    ensures left { (file : List ℕ) → D.told disk ≡ Some file → Only file (D.may_leave disk)
        → IfSome (D.told result.disk) (LeavesMigrated d.now old.now file) }
    ensures calm { IfOk result.answer (λ a. a.ending ≢ DiskFailed → IsCalm (D.told disk) (D.may_leave disk)
        → IsCalm (D.told result.disk) (D.may_leave result.disk)) }
    ensures faults { D.faults disk ≤ D.faults result.disk }
{
    let beginning = match begin_from(alloc, d, old, progress) {
        Ok(beginning) => beginning,
        Err(error) => return unrun(alloc, disk, not_recovered(alloc, error)),
    };
    let Beginning {
        base,
        history,
        text,
        said,
    } = beginning;
    match Wal::create_with(alloc, disk, &base, history.as_slice(), bytes_of(&text)) {
        Ok(wal) => Ended {
            disk: wal.give_back(),
            settled: history.len() as u64,
            history,
            answer: Ok(said),
        },
        Err((error, disk)) => unrun(alloc, disk, not_made(alloc, error)),
    }
}
