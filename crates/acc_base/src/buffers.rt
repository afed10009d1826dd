//! A vector whose room contracts see, for calls that take no memory.
ghost use Rattle.std.specs.Prelude.{◌≡◌, ◌≤◌, ◌<◌, ◌+◌, [], ◌∷◌, ◌++◌, length, take, IfOk, IsOk, IsTrue, ◌↔◌, OnOk, OnErr, MatchOption};
ghost use Rattle.acc_base.specs.Room.{spare};

use crate::sequences::Seq;
use std::alloc::{AllocError, Global};
use std::marker::Model;

/// A vector that contracts see as its items, and how many it has room for.
#[derive(Drop)]
pub struct Buffer<T> {
    items: Vec<T>,
}

impl<T> Model for Buffer<T> {
    ghost use Rattle.std.specs.Prelude.{vec_capacity};
    ghost use Rattle.acc_base.specs.Room.{Held};

    ghost Value = { Held T };

    ghost view = { λ b. record { items = b.items.items; room = vec_capacity b.items } };
}

impl<T> Buffer<T> {
    /// No items, and room for none.
    pub fn new(alloc: Global) -> Self
        ensures { result.items ≡ [] }
    {
        Buffer {
            items: Vec::new(alloc),
        }
    }

    /// No items, and room for so many.
    pub fn with_room(alloc: Global, room: usize) -> Result<Self, AllocError>
        ensures items { IfOk result (λ b. b.items ≡ []) }
        ensures room { IfOk result (λ b. room ≤ b.room) }
    {
        Ok(Buffer {
            items: Vec::with_capacity(alloc, room)?,
        })
    }

    /// How many items there are.
    pub fn len(&self) -> usize
        ensures { result ≡ length self.now.items }
    {
        self.items.len()
    }

    /// Whether there is none.
    pub fn is_empty(&self) -> bool
        ensures { IsTrue result ↔ (self.now.items ≡ []) }
    {
        self.items.is_empty()
    }

    /// The items.
    pub fn as_slice(&self) -> &[T]
        ensures { result.now ≡ self.now.items }
    {
        self.items.as_slice()
    }

    /// A sequence's items.
    pub fn from_seq(items: Seq<T>) -> Self
        ensures { result.items ≡ items }
    {
        Buffer {
            items: items.into_vec(),
        }
    }

    /// The items as a sequence.
    pub fn into_seq(self) -> Seq<T>
        ensures { result ≡ self.items }
    {
        Seq::from_vec(self.items)
    }

    /// Makes room for so many more. Where there is room it takes no memory.
    pub fn reserve(&mut self, more: usize) -> Result<(), AllocError>
        ensures items { self.new.items ≡ self.old.items }
        ensures room { OnOk result (length self.new.items + more ≤ self.new.room) }
        ensures kept { self.old.room ≤ self.new.room }
        ensures enough { length self.old.items + more ≤ self.old.room → IsOk result }
    {
        self.items.reserve(more)
    }

    /// Removes the last item, if there is one.
    pub fn pop(&mut self) -> Option<T>
        ensures items { MatchOption result ((self.old.items ≡ []) × (self.new.items ≡ []))
            (λ x. self.old.items ≡ self.new.items ++ x ∷ []) }
        ensures room { self.new.room ≡ self.old.room }
    {
        self.items.pop()
    }
}

impl<T: Drop> Buffer<T> {
    /// Adds an item behind the others. Where there is room it takes no memory, and doesn't fail.
    pub fn push(&mut self, item: T) -> Result<(), AllocError>
        ensures ok { OnOk result (self.new.items ≡ self.old.items ++ item ∷ []) }
        ensures err { OnErr result (self.new.items ≡ self.old.items) }
        ensures kept { self.old.room ≤ self.new.room }
        ensures enough { length self.old.items < self.old.room → IsOk result }
    {
        self.items.push(item)?;
        Ok(())
    }

    /// Adds an item for which there is room. It takes no memory.
    pub fn put(&mut self, item: T)
        requires { 0 < spare self.old }
        ensures items { self.new.items ≡ self.old.items ++ item ∷ [] }
        ensures kept { self.old.room ≤ self.new.room }
    {
        let _there_is_room = self.push(item);
    }

    /// Keeps the first n items.
    pub fn truncate(&mut self, n: usize)
        ensures items { self.new.items ≡ take n self.old.items }
        ensures room { self.new.room ≡ self.old.room }
    {
        self.items.truncate(n);
    }

    /// Drops all items.
    pub fn clear(&mut self)
        ensures items { self.new.items ≡ [] }
        ensures room { self.new.room ≡ self.old.room }
    {
        self.items.clear();
    }
}
