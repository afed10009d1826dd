//! Why nothing is recovered.
use acc_wal::WalError;

/// Why no state is recovered from a disk. After each the store that is handed back has the rows of some first of the events that
/// were found or of the recovered ones; where the journal or its text is refused it is empty.
#[derive(Clone, Copy)]
pub enum RecoverError {
    /// The disk's bytes aren't a journal's: `NotJournal`, `OtherVersion` or `Damaged`, and no other.
    Journal(WalError),
    /// The journal's base text isn't the printed text of the design.
    OtherDesign,
    /// The event with so many before it is the first that isn't lawful.
    Unlawful(u64),
    /// All events are lawful. Of the journal's states the one with so many events before it is the first that isn't the text of the
    /// rows there, or with something unfinished there.
    Differs(u64),
    /// The disk failed: its count of faults rose in this call.
    Disk,
    /// Memory ran out.
    Memory,
}
