//! The reply lines of the places after the durable events.
ghost use Rattle.std.specs.Prelude.{◌≡◌, ◌++◌, length, IfOk, OnOk};
ghost use Rattle.std.specs.List.{flat_map, range_with_len};
ghost use Rattle.acc_script.specs.OrderLines.{IsPlace};
ghost use Rattle.acc_settling.specs.Replies.{durable_line};

use acc_disk::Disk;
use acc_engine::Engine;
use acc_script::{push_reply, push_unsettled};
use acc_store::Store;
use std::alloc::{AllocError, Global};

/// Writes the reply line of a place after the durable events.
fn push_durable_line<S: Store, D: Disk>(
    engine: &Engine<S, D>,
    numbers: &[Option<u64>],
    text: &mut Vec<u8>,
    place: u64,
) -> Result<(), AllocError>
    requires place { IsPlace (length numbers.now) place }
    ensures { OnOk result (text.new.items ≡ text.old.items ++ durable_line engine.now numbers.now place) }
{
    match numbers[(place - 1) as usize] {
        None => push_unsettled(text, place),
        Some(t) => match engine.ack(t) {
            Some(reply) => push_reply(text, place, reply),
            None => push_unsettled(text, place),
        },
    }
}

/// The reply line of each place after the durable events.
pub fn durable_replies<S: Store, D: Disk>(
    alloc: Global,
    engine: &Engine<S, D>,
    numbers: &[Option<u64>],
) -> Result<Vec<u8>, AllocError>
    ensures { IfOk result (λ text. text.items
        ≡ flat_map (durable_line engine.now numbers.now) (range_with_len 1 (length numbers.now))) }
{
    let mut text = Vec::new(alloc);
    for at in 0..numbers.len() {
        push_durable_line(engine, numbers, &mut text, at as u64 + 1)?;
    }
    Ok(text)
}
