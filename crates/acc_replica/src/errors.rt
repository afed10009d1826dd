//! What a replica tells, and why it is refused.

/// What a call of `advance` did.
#[derive(Clone, Copy)]
pub enum Advanced {
    /// The next event was done.
    Event,
    /// The next state was compared: it is the text of the rows, and nothing is unfinished.
    Seal,
    /// Nothing: all that came whole is done.
    NotYet,
}

/// Why a replica doesn't go on, or a call isn't done. All but `Memory` stay, whatever is fed behind them.
#[derive(Clone, Copy)]
pub enum ReplicaError {
    /// The first byte isn't a journal's.
    NotJournal,
    /// It is a journal of that version, which is neither 1 nor 2.
    OtherVersion(u32),
    /// The journal's base text isn't the printed text of the design.
    OtherDesign,
    /// The batch whose gate stands at that place, in bytes from the stream's beginning, came whole and isn't spelled as a batch.
    Damaged(u64),
    /// A byte stands behind the gate at that place, which isn't open.
    Past(u64),
    /// The event with so many before it isn't lawful.
    Unlawful(u64),
    /// The state with so many events before it isn't the text of the rows there, or something is unfinished there.
    Differs(u64),
    /// Memory ran out, or the stream would have 2^64 bytes or more. All is as before, and the call may be tried again.
    Memory,
}
