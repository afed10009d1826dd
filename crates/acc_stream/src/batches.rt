// Whole batches, one behind the other.
ghost use Rattle.std.specs.Prelude.{◌<◌, ◌+◌, ◌^◌, ℕ, length, IfOk};
ghost use Rattle.acc_stream.specs.Streams.{BeginsWhole, StopsAt};
ghost use Rattle.acc_stream.specs.Reading.{TellsWhole, ReadsOn};

use crate::bodies::body_of;
use crate::faults::Fault;
use crate::numbers::number_of;
use crate::queues::Queue;
use std::alloc::{AllocError, Global};

/// What was read of some bytes: the items of their whole batches, how many bytes these have, and the fault behind them, if there is one.
#[derive(Drop)]
pub struct Found {
    pub items: Queue,
    pub long: usize,
    pub ended: Option<Fault>,
}

// How long the body of the batch is that the bytes begin with, where it is whole.
fn whole_at(bytes: &[u8]) -> Option<usize>
    ensures { TellsWhole bytes.now result }
{
    if bytes.len() < 6 || bytes[0] != 0xA5 {
        return None;
    }
    let long = number_of(&bytes[1..]) as usize;
    if bytes.len() - 6 < long {
        None
    } else {
        Some(long)
    }
}

// The fault of a byte behind a gate that isn't open, which stands at that place, if there is one.
fn past_at(bytes: &[u8], place: u64) -> Option<Fault>
    requires { ¬ BeginsWhole bytes.now }
    ensures { (version : ℕ) → StopsAt version place bytes.now result }
{
    if bytes.len() > 1 && bytes[0] != 0xA5 {
        Some(Fault::Past(place))
    } else {
        None
    }
}

/// Reads the whole batches that the bytes begin with, up to the first that isn't spelled. The first byte is a gate, and stands at that
/// place of the stream. It takes time and memory with the length of what is whole.
pub fn batches_of(
    alloc: Global,
    bytes: &[u8],
    version: u32,
    place: u64,
) -> Result<Found, AllocError>
    requires { place + length bytes.now < 2 ^ 64 }
    ensures { IfOk result (ReadsOn version place bytes.now) }
{
    let mut items = Queue::new(alloc);
    let mut long = 0;
    while let Some(count) = whole_at(&bytes[long..]) {
        match body_of(alloc, &bytes[long + 5..long + 5 + count], version)? {
            Some(more) => {
                items.append(more)?;
                long += 5 + count;
            }
            None => {
                let ended = Some(Fault::Damaged(place + long as u64));
                return Ok(Found { items, long, ended });
            }
        }
    }
    let ended = past_at(&bytes[long..], place + long as u64);
    Ok(Found { items, long, ended })
}
