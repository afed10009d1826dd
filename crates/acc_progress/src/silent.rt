use crate::{BenchPart, Found, Progress};

/// Tells nothing.
#[derive(Clone, Copy)]
pub struct Silent;

impl Progress for Silent {
    fn replayed(&mut self, _done: u64, _events: u64) {}

    fn recovered(&mut self, _found: Found) {}

    fn searched(&mut self, _done: u64, _obligations: u64, _open: u64) {}

    fn began(&mut self, _part: BenchPart) {}
}
