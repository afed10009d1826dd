// What stood of a file in memory at some moment, worked out from what was done to it.
ghost use Rattle.std.specs.Prelude.{◌≡◌, ◌+◌, ◌≤◌, ◌<◌, ◌↔◌, ◌&&◌, nat_le, nat_lt};
ghost use Rattle.std.specs.Prelude.{false, length, IsTrue, IfOk, OnOk};
ghost use Rattle.acc_disk.specs.Standings.{Standing, settled, is_written, IsImage};
ghost use Rattle.acc_disk.specs.Changes.{after_change};

use crate::draw::Draw;
use crate::history::{FileChange, put};
use std::alloc::{AllocError, Global};
use std::marker::Model;

// The bytes that stood there, those of the last sync, and of the calls since it the lowest and the highest length and
// the ranges written, each by its first place and its length.
#[derive(Drop)]
pub(crate) struct Replay {
    bytes: Vec<u8>,
    synced: Vec<u8>,
    lowest: usize,
    highest: usize,
    written: Vec<(usize, usize)>,
}

impl Model for Replay {
    ghost Value = { Standing };

    ghost view = { λ r. record {
      bytes = r.bytes.items;
      synced = r.synced.items;
      lowest = r.lowest;
      highest = r.highest;
      written = r.written.items;
    } };

    ghost invariant = { λ r. (r.lowest ≤ length r.synced.items) × (r.lowest ≤ r.highest) };
}

fn covers(at: usize, count: usize, place: usize) -> bool
    ensures { result ≡ (nat_le at place && nat_lt place (at + count)) }
{
    at <= place && place - at < count
}

// Whether one of the ranges covers that place.
fn any_covers(written: &[(usize, usize)], place: usize) -> bool
    ensures { result ≡ is_written written.now place }
{
    written.iter().any(|(at, count)| covers(*at, *count, place))
}

impl Replay {
    pub(crate) fn new(alloc: Global, start: &[u8]) -> Result<Replay, AllocError>
        ensures { IfOk result (λ replay. replay ≡ settled start.now) }
    {
        Ok(Replay {
            bytes: start.to_vec(alloc)?,
            synced: start.to_vec(alloc)?,
            lowest: start.len(),
            highest: start.len(),
            written: Vec::new(alloc),
        })
    }

    // Does the change once more. After an error nothing is known of it.
    pub(crate) fn apply(&mut self, alloc: Global, change: &FileChange) -> Result<(), AllocError>
        ensures { OnOk result (self.new ≡ after_change change.now self.old) }
    {
        match change {
            FileChange::Wrote { at, bytes } => {
                self.written.push((*at, bytes.len()))?;
                let start = (*at).min(self.bytes.len());
                self.bytes.reserve(bytes.len())?;
                put(&mut self.bytes, start, bytes);
                self.highest = self.highest.max(self.bytes.len());
            }
            FileChange::Cut { to } => {
                self.bytes.truncate(*to);
                self.lowest = self.lowest.min(self.bytes.len());
            }
            FileChange::Synced => {
                self.synced = self.bytes.to_vec(alloc)?;
                self.lowest = self.bytes.len();
                self.highest = self.bytes.len();
                self.written.clear();
            }
        }
        Ok(())
    }

    // Whether a crash leaves the synced byte there.
    fn is_fixed(&self, place: usize) -> bool
        ensures { IsTrue result ↔ ((place < self.now.lowest) × (is_written self.now.written place ≡ false)) }
    {
        place < self.lowest && !any_covers(&self.written, place)
    }

    // The bytes that a crash left, as drawn by that number. Each place costs a look at each range that was written.
    pub(crate) fn image(&self, alloc: Global, pick: u64) -> Result<Vec<u8>, AllocError>
        ensures { IfOk result (λ image. IsImage self.now image.items) }
    {
        let mut draw = Draw::new(pick, self.lowest, self.highest);
        let mut image = Vec::with_capacity(alloc, draw.length)?;
        for place in 0..draw.length {
            let byte = if self.is_fixed(place) {
                self.synced[place]
            } else {
                let written = self.bytes.get(place).copied().unwrap_or(0);
                let synced = self.synced.get(place).copied().unwrap_or(0);
                draw.byte(place, written, synced)
            };
            image.push(byte)?;
        }
        Ok(image)
    }
}
