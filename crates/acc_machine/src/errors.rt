//! Why calls of a state are refused.

/// Why a state isn't made.
#[derive(Clone, Copy)]
pub enum StateError {
    /// Memory ran out.
    Memory,
}

/// Why a call doesn't begin.
#[derive(Clone, Copy)]
pub enum BeginError {
    /// The history holds 2^20 events or more.
    Full,
    /// It holds fewer, and 64 transactions are unfinished.
    Crowd,
    /// Memory ran out; the state is as before.
    Memory,
}

/// Why a turn isn't made.
#[derive(Clone, Copy)]
pub enum TurnError {
    /// Memory ran out; the state is as before.
    Memory,
}

/// Why an event isn't taken.
#[derive(Clone, Copy)]
pub enum TakeError {
    /// In this state nothing gives the event, or its call doesn't fit its type; the state is as before.
    Unlawful,
    /// Memory ran out; the state is as before.
    Memory,
}

/// Why a history isn't done again.
#[derive(Clone, Copy)]
pub enum ReplayError {
    /// The event with so many before it is the first that isn't lawful.
    Unlawful(u64),
    /// Memory ran out.
    Memory,
}
