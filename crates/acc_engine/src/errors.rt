//! What an engine's calls answer.

/// Why a call of an engine isn't done.
#[derive(Clone, Copy)]
pub enum EngineError {
    /// The disk failed while the history settled. The state is as before, and the engine has failed.
    Disk,
    /// An earlier call of this engine answered `Disk`. Nothing was changed.
    Failed,
    /// Memory ran out. The state, the calls and the journal's events are as before.
    Memory,
}

/// What came of beginning a place.
#[derive(Clone, Copy)]
pub enum Drawn {
    /// Its call began, as the transaction of this number.
    Begun(u64),
    /// All places are begun.
    Empty,
    /// The history holds 2^20 events or more.
    Full,
    /// It holds fewer, and 64 transactions are unfinished.
    Crowd,
}
