//! What the bytes count, and whether the journal is the design's.
ghost use Rattle.std.specs.Prelude.{◌≡◌, ◌↔◌, IsTrue, IfOk, IfErr};
ghost use Rattle.acc_print.specs.Designs.{printed};
ghost use Rattle.acc_wal.specs.Journals.{Counts};
ghost use Rattle.acc_audit_journal.specs.declared.journals.JudgeError.TheVariants.{Memory as OutOfMemory};
ghost use Rattle.acc_audit_journal.specs.Judging.{NotCounted};

use acc_base::designs::Design;
use acc_base::sequences::Seq;
use acc_print::{PrintError, print};
use acc_wal::{Journal, WalError, counted};
use std::alloc::{AllocError, Global};

/// What is told of a journal's events.
#[derive(Drop)]
pub enum Judgement {
    /// There are so many, and after none of them a clause is false at values of its ranges.
    Clean(u64),
    /// After so many events, from 1, a clause is false: the number of the transaction whose point it is of, or 0 where it is asserted at
    /// all times; the clause's number there, from 1; and values for its own variables.
    False(u64, u64, u32, Seq<i64>),
    /// After so many events, from 1, a clause can't be told of, by its transaction, or 0, and its number there, from 1.
    Large(u64, u64, u32),
}

/// Why a journal's events aren't judged.
#[derive(Clone, Copy)]
pub enum JudgeError {
    /// The bytes aren't a journal's: `NotJournal`, `OtherVersion` or `Damaged`, and no other.
    Journal(WalError),
    /// The journal's base text isn't the printed text of the design.
    OtherDesign,
    /// The event behind so many is none that the design's machine allows there.
    NotRun(u64),
    /// Memory ran out.
    Memory,
}

impl From<AllocError> for JudgeError {
    ghost from_gives = { λ _ e. e ≡ OutOfMemory };

    fn from(_: AllocError) -> Self {
        JudgeError::Memory
    }
}

/// What the bytes of a journal count, or why they aren't a journal's.
pub fn journal_of(alloc: Global, bytes: &[u8]) -> Result<Journal, JudgeError>
    ensures ok { IfOk result (λ journal. Counts bytes.now journal.base journal.events) }
    ensures why { IfErr result (NotCounted bytes.now) }
{
    match counted(alloc, bytes) {
        Ok(journal) => Ok(journal),
        Err(error) => match error {
            WalError::NotJournal | WalError::OtherVersion(_) | WalError::Damaged(_) => {
                Err(JudgeError::Journal(error))
            }
            WalError::Memory => Err(JudgeError::Memory),
            WalError::Exists | WalError::Disk | WalError::Spent => unreachable!(),
        },
    }
}

/// Whether a base text is the design's printed text.
pub fn is_of(alloc: Global, d: &Design, base: &[u8]) -> Result<bool, AllocError>
    ensures { IfOk result (λ same. IsTrue same ↔ (base.now ≡ printed d.now)) }
{
    match print(alloc, d) {
        Ok(text) => Ok(base == text.as_slice()),
        Err(PrintError::Memory) => Err(AllocError),
    }
}
