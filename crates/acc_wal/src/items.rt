// What batches hold.
use acc_base::machines::Event;
use acc_base::sequences::Seq;

/// An item of a batch.
#[derive(Drop)]
pub enum Item {
    /// An event.
    Event(Event),
    /// The text of a state, of fewer than 2^32 bytes. Journals of version 1 have none.
    State(Seq<u8>),
}

/// The text of a state, and its place: the number of events before it.
#[derive(Drop)]
pub struct Seal {
    pub place: u64,
    pub text: Seq<u8>,
}
