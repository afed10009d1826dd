/// What recovery found in a journal, and what it did.
#[derive(Clone, Copy)]
pub struct Found {
    /// How many events the journal held.
    pub events: u64,
    /// How many transactions were begun and not ended in them.
    pub unfinished: u64,
    /// How many transactions recovery compensated.
    pub compensated: u64,
}

/// What a benchmark does, one part after the other.
#[derive(Clone, Copy)]
pub enum BenchPart {
    /// It runs the calls of the load.
    Load,
    /// It runs the calls of the mix.
    Mix,
    /// It tries the consistency conditions.
    Conditions,
}

/// Is told how far a long call is. What it does with that changes nothing of the call.
pub trait Progress {
    /// So many of a journal's events are done again, of so many.
    fn replayed(&mut self, done: u64, events: u64);

    /// Recovery is over.
    fn recovered(&mut self, found: Found);

    /// The search is through with so many of so many obligations, and so many of these are open.
    fn searched(&mut self, done: u64, obligations: u64, open: u64);

    /// A benchmark has come to this part.
    fn began(&mut self, part: BenchPart);
}
