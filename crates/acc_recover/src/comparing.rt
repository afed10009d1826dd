// States of a journal, compared with the rows that have come.
ghost use Rattle.std.specs.Prelude.{◌≡◌, ◌↔◌, IfOk, IsTrue};
ghost use Rattle.acc_base.specs.Tables.{IsInOrder};
ghost use Rattle.acc_ckpt.specs.Texts.{text_of, IsCounted};
ghost use Rattle.acc_machine.specs.Kept.{IsKept};
ghost use Rattle.acc_recover.specs.Seals.{TellsText, KeepsFirst};

use acc_base::tables::Plain;
use acc_ckpt::{CkptError, text, text_len};
use acc_machine::State;
use acc_store::{Store, StoreError};
use acc_wal::Seal;
use std::alloc::{AllocError, Global};

// Whether rows have this text. Where the text isn't as long as theirs, none is made.
fn have_text(alloc: Global, rows: &Plain, sealed: &[u8]) -> Result<bool, AllocError>
    requires order { IsInOrder rows.now.rows }
    requires counts { IsCounted rows.now.rows }
    ensures { IfOk result (λ same. IsTrue same ↔ (sealed.now ≡ text_of rows.now.rows)) }
{
    if text_len(rows) != sealed.len() as u64 {
        return Ok(false);
    }
    match text(alloc, rows) {
        Ok(own) => Ok(sealed == own.as_slice()),
        Err(CkptError::Memory) => Err(AllocError),
        Err(CkptError::NotState) => unreachable!(),
    }
}

/// Whether the rows of a state of the machine have this text, and nothing is unfinished.
pub fn is_text_of<S: Store>(
    alloc: Global,
    state: &State<S>,
    sealed: &[u8],
) -> Result<bool, AllocError>
    requires kept { IsKept state.now.design state.now.world }
    ensures { IfOk result (TellsText state.now.world sealed.now) }
{
    if !state.unfinished().is_empty() {
        return Ok(false);
    }
    match state.store().rows(alloc) {
        Ok(rows) => have_text(alloc, &rows, sealed),
        Err(StoreError::Memory) => Err(AllocError),
    }
}

/// The first place at which a state differs: one that was found before, or else that of this state, if it differs from what has come.
pub fn compared<S: Store>(
    alloc: Global,
    state: &State<S>,
    seal: &Seal,
    first: Option<u64>,
) -> Result<Option<u64>, AllocError>
    requires kept { IsKept state.now.design state.now.world }
    ensures { IfOk result (KeepsFirst state.now.world seal.now first) }
{
    if let Some(place) = first {
        return Ok(Some(place));
    }
    if is_text_of(alloc, state, seal.text.as_slice())? {
        Ok(None)
    } else {
        Ok(Some(seal.place))
    }
}
