//! How much room a journal has left.
use acc_base::bounds::MOST_EVENTS;
use std::alloc::{AllocError, Global};

/// From so many events on it is told how many more a journal takes: nine tenths of all.
const MANY_EVENTS: usize = MOST_EVENTS - MOST_EVENTS / 10;

/// A line that tells how many events are left until the journal at this path, which has so many, takes no further call; none where that is
/// more than a tenth of all.
pub fn room_line(alloc: Global, path: &str, events: usize) -> Result<Option<String>, AllocError> {
    if events < MANY_EVENTS {
        return Ok(None);
    }
    let left = MOST_EVENTS.saturating_sub(events);
    let line = format!(in alloc;
        "{path}: this journal has {events} events, and takes no further call behind {MOST_EVENTS}, so {left} are left\n"
    )?;
    Ok(Some(line))
}
