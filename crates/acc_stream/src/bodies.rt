// The items of a batch.
ghost use Rattle.std.specs.Prelude.{◌≡◌, IfOk};
ghost use Rattle.acc_stream.specs.Reading.{TellsBody};

use crate::queues::Queue;
use acc_wal::spelled;
use std::alloc::{AllocError, Global};

/// The items that the body of a batch spells, all of it; nothing where it spells no items, or something else.
pub fn body_of(alloc: Global, body: &[u8], version: u32) -> Result<Option<Queue>, AllocError>
    ensures { IfOk result (TellsBody version body.now) }
{
    if body.is_empty() {
        return Ok(None);
    }
    let mut items = Queue::new(alloc);
    let mut at = 0;
    while at < body.len() {
        match spelled(alloc, body, at, version) {
            Ok(Some((item, next))) => {
                items.push(item)?;
                at = next;
            }
            Ok(None) => return Ok(None),
            Err(_) => return Err(AllocError),
        }
    }
    Ok(Some(items))
}
