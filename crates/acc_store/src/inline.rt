//! Lists of bounded length that take no memory of their own.
ghost use Rattle.std.specs.Prelude.{◌≡◌, ◌≤◌, ◌<◌, ◌++◌, ◌∷◌, [], length, slice_set};

use std::marker::Model;

/// Up to N items. Contracts see them as a list.
#[derive(Drop)]
pub struct Inline<T, const N: usize> {
    len: usize,
    items: [T; N],
}

impl<T, const N: usize> Model for Inline<T, N> {
    ghost use Rattle.std.specs.Prelude.{List, take, ◌≤◌};

    ghost Value = { List T };

    ghost view = { λ s. take s.len s.items };

    ghost invariant = { λ s. s.len ≤ N };
}

impl<T: Copy, const N: usize> Inline<T, N> {
    /// No items; the blank stands where there is none.
    pub fn new(blank: T) -> Self
        ensures { result ≡ [] }
    {
        Inline {
            len: 0,
            items: [blank; N],
        }
    }

    /// These items.
    pub fn from_slice(blank: T, items: &[T]) -> Self
        requires { length items.now ≤ N }
        ensures { result ≡ items.now }
    {
        let len = items.len();
        let mut all = [blank; N];
        all[..len].copy_from_slice(items);
        Inline { len, items: all }
    }

    /// One more item.
    pub fn push(&mut self, item: T)
        requires { length self.old < N }
        ensures { self.new ≡ self.old ++ item ∷ [] }
    {
        self.items[self.len] = item;
        self.len += 1;
    }

    /// The items.
    pub fn as_slice(&self) -> &[T]
        ensures value { result.now ≡ self.now }
        ensures few { length result.now ≤ N }
    {
        &self.items[..self.len]
    }

    /// Replaces an item, where there is one.
    pub fn set(&mut self, place: usize, item: T)
        ensures { self.new ≡ slice_set self.old place item }
    {
        if place < self.len {
            self.items[place] = item;
        }
    }
}
