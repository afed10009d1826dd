//! A sink that keeps what it has taken.
use acc_io::{Failed, Sink};
use std::alloc::Global;

/// A sink, and a copy of the bytes that it took, as far as memory lasts.
#[derive(Drop)]
pub struct Keeping<K: Sink + Drop> {
    out: K,
    kept: Vec<u8>,
}

/// Keeps the bytes of a piece that were taken.
fn keep(kept: &mut Vec<u8>, piece: &[u8], taken: usize) {
    if let Some(front) = piece.get(..taken) {
        match kept.extend_from_slice(front) {
            Ok(()) | Err(_) => {}
        }
    }
}

impl<K: Sink + Drop> Keeping<K> {
    /// Nothing is kept yet.
    pub fn new(alloc: Global, out: K) -> Self {
        Keeping {
            out,
            kept: Vec::new(alloc),
        }
    }

    /// What was kept.
    pub fn kept(&self) -> &[u8] {
        &self.kept
    }
}

impl<K: Sink + Drop> Sink for Keeping<K> {
    ghost bytes = { λ s. K.bytes s.out };

    ghost faults = { λ s. K.faults s.out };

    fn write(&mut self, piece: &[u8]) -> Result<usize, Failed> {
        match self.out.write(piece) {
            Ok(taken) => {
                keep(&mut self.kept, piece, taken);
                Ok(taken)
            }
            Err(Failed) => Err(Failed),
        }
    }
}
