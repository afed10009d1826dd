// Items that wait.
ghost use Rattle.std.specs.Prelude.{◌≡◌, ◌++◌, ◌^◌, ◌<◌, [], ◌∷◌, length, drop, slice_get, OnOk, OnErr, option_copied};
ghost use Rattle.acc_wal.specs.Items.{events_of};

use acc_wal::Item;
use std::alloc::{AllocError, Global};
use std::collections::VecDeque;
use std::marker::Model;

/// Items that wait, the oldest first, and how many of them are events. Contracts see it as the list of the items.
#[derive(Drop)]
pub struct Queue {
    items: VecDeque<Item>,
    events: usize,
}

impl Model for Queue {
    ghost use Rattle.std.specs.Prelude.{◌≡◌, List, length};
    ghost use Rattle.acc_wal.specs.Items.{events_of};
    ghost use Rattle.acc_wal.specs.declared.items.Item.{Item};

    ghost Value = { List Item };

    ghost view = { λ q. q.items.items };

    ghost invariant = { λ q. q.events ≡ length (events_of q.items.items) };
}

// How many events an item is.
fn events_in(item: &Item) -> usize
    ensures { result ≡ length (events_of (item.now ∷ [])) }
{
    match item {
        Item::Event(_) => 1,
        Item::State(_) => 0,
    }
}

impl Queue {
    /// No items. It takes no memory.
    pub fn new(alloc: Global) -> Self
        ensures { result ≡ [] }
    {
        Queue {
            items: VecDeque::new(alloc),
            events: 0,
        }
    }

    /// The oldest item, if there is one.
    pub fn front(&self) -> Option<&Item>
        ensures { option_copied result ≡ slice_get self.now 0 }
    {
        self.items.front()
    }

    /// How many of the items are events.
    pub fn events(&self) -> usize
        ensures events { result ≡ length (events_of self.now) }
        ensures few { result < 2 ^ 63 }
    {
        self.events
    }

    /// Puts an item behind the others.
    pub fn push(&mut self, item: Item) -> Result<(), AllocError>
        ensures ok { OnOk result (self.new ≡ self.old ++ item ∷ []) }
        ensures err { OnErr result (self.new ≡ self.old) }
    {
        let more = events_in(&item);
        if self.items.push_back(item).is_err() {
            return Err(AllocError);
        }
        self.events += more;
        Ok(())
    }

    /// Puts items behind the others, all of them or none.
    pub fn append(&mut self, more: Queue) -> Result<(), AllocError>
        ensures ok { OnOk result (self.new ≡ self.old ++ more) }
        ensures err { OnErr result (self.new ≡ self.old) }
    {
        let Queue { mut items, events } = more;
        self.items.append(&mut items)?;
        self.events += events;
        Ok(())
    }

    /// Lets the oldest item go, if there is one.
    pub fn skip(&mut self)
        ensures { self.new ≡ drop 1 self.old }
    {
        if let Some(item) = self.items.pop_front() {
            self.events -= events_in(&item);
        }
    }
}
