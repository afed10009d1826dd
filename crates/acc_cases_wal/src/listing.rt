//! Events by words, with commas, for a journal that is made with them.
ghost use Rattle.std.specs.Prelude.{◌≡◌, ◌<◌, ◌^◌, ◌++◌, ◌∷◌, [], length, All, OnOk};
ghost use Rattle.acc_wal.specs.Spellings.{body, Fits};

use crate::events::event;
use acc_base::machines::Event;
use acc_wal::event_len;
use std::alloc::{AllocError, Global};
use std::marker::Model;

/// Less than so many bytes they are spelled in.
const MOST: usize = 1 << 20;

/// Events that fit their fields and are spelled in few bytes.
#[derive(Drop)]
pub struct ListedEvents {
    events: Vec<Event>,
    bytes: usize,
}

impl Model for ListedEvents {
    ghost use Rattle.std.specs.Prelude.{◌≡◌, ◌<◌, ◌^◌, List, length, All};
    ghost use Rattle.acc_base.specs.declared.machines.Event.{Event};
    ghost use Rattle.acc_wal.specs.Spellings.{body, Fits};

    ghost Value = { List Event };

    ghost view = { λ l. l.events.items };

    ghost invariant = { λ l. All Fits l.events.items × (l.bytes ≡ length (body l.events.items)) × (l.bytes < 2 ^ 20) };
}

impl ListedEvents {
    fn new(alloc: Global) -> Self
        ensures { result ≡ [] }
    {
        ListedEvents {
            events: Vec::new(alloc),
            bytes: 0,
        }
    }

    /// Puts an event behind them. `Err` comes where memory lacks, or where they would be long.
    fn push(&mut self, event: Event) -> Result<(), AllocError>
        requires { Fits event }
        ensures { OnOk result (self.new ≡ self.old ++ event ∷ []) }
    {
        let bytes = self.bytes.saturating_add(event_len(&event));
        if bytes >= MOST {
            return Err(AllocError);
        }
        self.events.push(event)?;
        self.bytes = bytes;
        Ok(())
    }

    /// The events.
    pub fn events(&self) -> &[Event]
        ensures same { result.now ≡ self.now }
        ensures fit { All Fits result.now }
        ensures short { length (body result.now) < 2 ^ 20 }
    {
        self.events.as_slice()
    }
}

/// The events of those words, as far as they are some.
pub fn events_in(alloc: Global, words: &str) -> Result<ListedEvents, AllocError> {
    let mut read = ListedEvents::new(alloc);
    for part in words.split(',') {
        let part: Vec<&str> = part.split(' ').collect(alloc)?;
        match event(alloc, part.as_slice())? {
            Some(event) => read.push(event)?,
            None => return Ok(read),
        }
    }
    Ok(read)
}
