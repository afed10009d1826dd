//! Numbers of which none stands twice.
ghost use Rattle.std.specs.Prelude.{◌≡◌, ◌≤◌, ◌↔◌, ◌||◌, [], length, vec_capacity, IfOk, OnOk, IsTrue, true, ◌==◌, Some, None};
ghost use Rattle.std.specs.Prelude.{if◌then◌else◌};
ghost use Rattle.acc_lock_holders.specs.Numbers.{has_room, is_among, least_but, lower_of, with_number, without_number};

use std::alloc::{AllocError, Global};
use std::marker::Model;

/// Numbers, in no order, each once.
#[derive(Drop)]
pub struct Numbers {
    items: Vec<u64>,
}

impl Model for Numbers {
    ghost use Rattle.std.specs.Prelude.{vec_capacity};
    ghost use Rattle.acc_lock_holders.specs.Numbers.{Numbers as Seen};

    ghost Value = { Seen };

    ghost view = { λ s. record { items = s.items.items; room = vec_capacity s.items } };
}

/// Whether a number is among others.
fn is_among(t: u64, numbers: &[u64]) -> bool
    ensures { result ≡ is_among t numbers.now }
{
    numbers.iter().any(|u| *u == t)
}

/// The lower of a number and one that may be there.
fn lower(best: Option<u64>, u: u64) -> u64
    ensures { result ≡ lower_of best u }
{
    match best {
        Some(m) => { if m < u { m } else { u } }
        None => u,
    }
}

/// The lower of a number that may be there and another, unless that is one to leave out.
fn lower_but(best: Option<u64>, u: u64, t: u64) -> Option<u64>
    ensures { result ≡ (if u == t then best else Some (lower_of best u)) }
{
    if u == t { best } else { Some(lower(best, u)) }
}

/// The lowest of a number, which may be there, and of numbers but one.
fn lowest_but(numbers: &[u64], t: u64, best: Option<u64>) -> Option<u64>
    ensures { result ≡ least_but t best numbers.now }
{
    let mut best = best;
    for u in numbers {
        best = lower_but(best, *u, t);
    }
    best
}

/// Leaves a number out.
fn leave_out(numbers: &mut Vec<u64>, t: u64)
    ensures items { numbers.new.items ≡ without_number t numbers.old.items }
    ensures room { vec_capacity numbers.new ≡ vec_capacity numbers.old }
    ensures fewer { length numbers.new.items ≤ length numbers.old.items }
{
    numbers.retain(|u| *u != t);
}

impl Numbers {
    /// No numbers, and room for one.
    pub fn with_room(alloc: Global) -> Result<Self, AllocError>
        ensures items { IfOk result (λ s. s.items ≡ []) }
        ensures room { IfOk result (λ s. has_room s ≡ true) }
    {
        Ok(Numbers {
            items: Vec::with_capacity(alloc, 4)?,
        })
    }

    /// Makes room for one more.
    pub fn make_room(&mut self) -> Result<(), AllocError>
        ensures items { self.new.items ≡ self.old.items }
        ensures room { OnOk result (has_room self.new ≡ true) }
        ensures kept { has_room self.old ≡ true → has_room self.new ≡ true }
    {
        self.items.reserve(1)
    }

    /// Whether there are none.
    pub fn is_empty(&self) -> bool
        ensures { IsTrue result ↔ (self.now.items ≡ []) }
    {
        self.items.is_empty()
    }

    /// The lowest of a number, which may be there, and of these but one.
    pub fn lowest_but(&self, t: u64, best: Option<u64>) -> Option<u64>
        ensures { result ≡ least_but t best self.now.items }
    {
        lowest_but(self.items.as_slice(), t, best)
    }

    /// Adds a number, if it isn't there. There is room for it, or it is there.
    pub fn add(&mut self, t: u64)
        requires room { (is_among t self.old.items || has_room self.old) ≡ true }
        ensures items { self.new.items ≡ with_number t self.old.items }
        ensures room { self.old.room ≤ self.new.room }
    {
        if !is_among(t, self.items.as_slice()) {
            let _room = self.items.push(t);
        }
    }

    /// Leaves a number out. The room stays.
    pub fn take_out(&mut self, t: u64)
        ensures items { self.new.items ≡ without_number t self.old.items }
        ensures kept { has_room self.old ≡ true → has_room self.new ≡ true }
    {
        leave_out(&mut self.items, t);
    }
}
