//! Why no more of a stream is read, and why a call isn't done.
ghost use Rattle.std.specs.Prelude.{◌≡◌};
ghost use Rattle.acc_stream.specs.declared.faults.StreamError.TheVariants.{Memory};

use std::alloc::AllocError;

/// Why no more of a stream is read. It stays so, whatever is fed behind it.
#[derive(Clone, Copy)]
pub enum Fault {
    /// The first byte isn't a journal's.
    NotJournal,
    /// It is a journal of that version, which is neither 1 nor 2.
    OtherVersion(u32),
    /// It is a journal of another base text.
    OtherBase,
    /// The batch whose gate stands at that place, in bytes from the stream's beginning, came whole and isn't spelled as a batch.
    Damaged(u64),
    /// A byte stands behind the gate at that place, which isn't open.
    Past(u64),
}

/// Why a call of a stream isn't done.
#[derive(Clone, Copy)]
pub enum StreamError {
    /// Memory ran out, or the stream would have 2^64 bytes or more. All is as before.
    Memory,
}

impl From<AllocError> for StreamError {
    ghost from_gives = { λ _ error. error ≡ Memory };

    fn from(_: AllocError) -> Self {
        StreamError::Memory
    }
}
