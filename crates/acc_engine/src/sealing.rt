//! The text of the rows that is put behind the events.
ghost use Rattle.std.specs.Prelude.{◌≡◌, ◌==◌, ◌<◌, ◌+◌, ◌^◌, length, false, IfOk, OnOk, OnErr};
ghost use Rattle.std.specs.List.{list_any};
ghost use Rattle.acc_base.specs.Tables.{IsInOrder};
ghost use Rattle.acc_ckpt.specs.Texts.{IsCounted};
ghost use Rattle.acc_wal.specs.Items.{seal_bytes};
ghost use Rattle.acc_wal.specs.Settling.{PushesSeal, SameButRoom};
ghost use Rattle.acc_wal.specs.Spellings.{body};
ghost use Rattle.acc_engine.specs.Sealing.{TellsShort, TellsDue};

use acc_base::sequences::Seq;
use acc_base::tables::Plain;
use acc_ckpt::{CkptError, text, text_len};
use acc_disk::Disk;
use acc_machine::State;
use acc_store::{Store, StoreError};
use acc_wal::{Seal, Wal, WalError};
use std::alloc::{AllocError, Global};

/// The most bytes that the text of a state has which an engine puts into its journal.
pub const LONGEST_SEAL: u64 = 1 << 22;

// Whether one of the states has this place.
fn is_sealed_at(seals: &[Seal], place: u64) -> bool
    ensures { result ≡ list_any (λ seal. seal.place == place) seals.now }
{
    for seal in seals {
        if seal.place == place {
            return true;
        }
    }
    false
}

// The text of the rows, unless it is too long. Then none is made.
fn short_text(alloc: Global, rows: &Plain) -> Result<Option<Seq<u8>>, AllocError>
    requires order { IsInOrder rows.now.rows }
    requires counts { IsCounted rows.now.rows }
    ensures { IfOk result (TellsShort rows.now.rows) }
{
    if text_len(rows) > LONGEST_SEAL {
        return Ok(None);
    }
    match text(alloc, rows) {
        Ok(text) => Ok(Some(Seq::from_vec(text))),
        Err(CkptError::Memory) => Err(AllocError),
        Err(CkptError::NotState) => unreachable!(),
    }
}

/// The text of all rows, where it is to be put behind the events: the journal's version has states, none has this place yet, and the text
/// isn't too long. It copies the rows.
pub fn due_text<S: Store, D: Disk>(
    alloc: Global,
    state: &State<S>,
    wal: &Wal<D>,
) -> Result<Option<Seq<u8>>, AllocError>
    ensures { IfOk result (TellsDue wal.now.version wal.now.seals state.now.world) }
{
    let place = state.events().len() as u64;
    if wal.version() != 2 || is_sealed_at(wal.seals(), place) {
        return Ok(None);
    }
    match state.store().rows(alloc) {
        Ok(rows) => short_text(alloc, &rows),
        Err(StoreError::Memory) => Err(AllocError),
    }
}

/// Puts a state of this text behind the events of a journal of version 2. Where memory runs out, nothing is changed but the room.
pub fn push_text<D: Disk>(wal: &mut Wal<D>, text: &[u8]) -> Result<(), AllocError>
    requires unspent { wal.old.spent ≡ false }
    requires version { wal.old.version ≡ 2 }
    requires short { length (body wal.old.tail) + seal_bytes wal.old.waiting + (5 + length text.now) < 2 ^ 32 }
    ensures ok { OnOk result (PushesSeal text.now wal.old wal.new) }
    ensures err { OnErr result (SameButRoom wal.old wal.new) }
{
    match wal.push_seal(text) {
        Ok(()) => Ok(()),
        Err(WalError::Memory) => Err(AllocError),
        Err(
            WalError::Exists
            | WalError::NotJournal
            | WalError::OtherVersion(_)
            | WalError::Damaged(_)
            | WalError::Disk
            | WalError::Spent,
        ) => unreachable!(),
    }
}
