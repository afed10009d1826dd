//! What has to be ready before a place begins.
ghost use Rattle.std.specs.Prelude.{◌≡◌, ◌≤◌, ◌<◌, List, ℕ, length, false, vec_len, All, IfOk, IfErr, OnOk};
ghost use Rattle.acc_base.specs.declared.machines.Call.{Call as TheCall};
ghost use Rattle.acc_base.specs.declared.machines.Event.TheVariants.{Begin};
ghost use Rattle.acc_wal.specs.Spellings.{event_bytes, Fits};
ghost use Rattle.acc_wal.specs.Settling.{SameButRoom};
ghost use Rattle.acc_engine.specs.Keeping.{is_begun, unbegun};
ghost use Rattle.acc_engine.specs.Calls.{IsBeginAt};
ghost use Rattle.acc_engine.specs.declared.errors.EngineError.TheVariants.{Memory};

use crate::errors::EngineError;
use crate::marks::widen;
use crate::noting::begin_again;
use acc_base::machines::{Call, Event};
use acc_disk::Disk;
use acc_wal::{Wal, WalError, event_len};

/// The event by which the place's call begins, with room for it in the journal and for its mark among the marks.
pub fn prepare<D: Disk>(
    wal: &mut Wal<D>,
    begun: &mut Vec<bool>,
    calls: &[Call],
    index: usize,
) -> Result<Event, EngineError>
    requires unspent { wal.old.spent ≡ false }
    requires within { index < length calls.now }
    requires fits { All (λ call. Fits (Begin call)) calls.now }
    ensures event { IfOk result (IsBeginAt calls.now index) }
    ensures fits { IfOk result Fits }
    ensures room { IfOk result (λ event. length (event_bytes event) ≤ wal.new.room) }
    ensures long { OnOk result (length calls.now ≤ vec_len begun.new) }
    ensures unspent { OnOk result (wal.new.spent ≡ false) }
    ensures why { IfErr result (λ error. error ≡ Memory) }
    ensures lists { SameButRoom wal.old wal.new }
    ensures same { (calls : List TheCall) → unbegun begun.new.items calls ≡ unbegun begun.old.items calls }
    ensures marks { (p : ℕ) → is_begun begun.new.items p ≡ is_begun begun.old.items p }
{
    let Ok(event) = begin_again(*begun.allocator(), &calls[index]) else {
        return Err(EngineError::Memory);
    };
    match wal.reserve(event_len(&event)) {
        Ok(()) => (),
        Err(WalError::Memory) => return Err(EngineError::Memory),
        Err(
            WalError::Exists
            | WalError::NotJournal
            | WalError::OtherVersion(_)
            | WalError::Damaged(_)
            | WalError::Disk
            | WalError::Spent,
        ) => unreachable!(),
    }
    match widen(begun, calls.len()) {
        Ok(()) => Ok(event),
        Err(_) => Err(EngineError::Memory),
    }
}
