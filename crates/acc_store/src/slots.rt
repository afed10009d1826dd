//! What stands at a place.
ghost use Rattle.std.specs.Prelude.{◌≡◌, ◌≤◌, length, None, Some, IfOk, IfSome, IsOk, OnOk, OnErr, option_copied};
ghost use Rattle.acc_store.specs.Changes.{CanChange, HasChanged, HasTaken, HasRefused};

use acc_base::bounds::MOST_COLUMNS;
use std::alloc::{AllocError, Global};
use std::marker::Model;

/// What is done to a slot.
#[derive(Drop)]
pub enum Change<'a> {
    /// Room is made for so many cells. Where there is room it takes no memory.
    Room(usize),
    /// It takes these cells, for which there is room.
    Put(&'a [i128]),
    /// It becomes a blank.
    Clear,
}

/// The cells of a row, or a blank. Either way the memory for cells stays.
#[derive(Drop)]
pub struct Slot {
    cells: Vec<i128>,
    is_row: bool,
}

impl Model for Slot {
    ghost use Rattle.std.specs.Prelude.{vec_len, vec_capacity, ◌≤◌};
    ghost use Rattle.acc_base.specs.declared.bounds.TheConstants.{MOST_COLUMNS};
    ghost use Rattle.acc_store.specs.Contents.{Content, cells_of};

    ghost Value = { Content };

    ghost view = { λ s. record { cells = cells_of s.is_row s.cells.items; room = vec_capacity s.cells } };

    ghost invariant = { λ s. vec_len s.cells ≤ MOST_COLUMNS };
}

impl Slot {
    /// A blank with room for some cells.
    pub fn blank(alloc: Global, room: usize) -> Result<Self, AllocError>
        ensures blank { IfOk result (λ s. s.cells ≡ None) }
        ensures room { IfOk result (λ s. room ≤ s.room) }
    {
        Ok(Slot {
            cells: Vec::with_capacity(alloc, room)?,
            is_row: false,
        })
    }

    /// A row of these cells.
    pub fn row(alloc: Global, cells: &[i128]) -> Result<Self, AllocError>
        requires few { length cells.now ≤ MOST_COLUMNS }
        ensures { IfOk result (λ s. s.cells ≡ Some cells.now) }
    {
        Ok(Slot {
            cells: Vec::from_slice(alloc, cells)?,
            is_row: true,
        })
    }

    /// The cells, if they are a row's.
    pub fn cells(&self) -> Option<&[i128]>
        ensures value { option_copied result ≡ self.now.cells }
        ensures few { IfSome (option_copied result) (λ cells. length cells ≤ MOST_COLUMNS) }
    {
        if self.is_row {
            Some(self.cells.as_slice())
        } else {
            None
        }
    }

    /// For how many cells there is room.
    pub fn room(&self) -> usize
        ensures { result ≡ self.now.room }
    {
        self.cells.capacity()
    }

    /// Makes room for some cells. Where there is room it takes no memory.
    fn make_room(&mut self, room: usize) -> Result<(), AllocError>
        ensures cells { self.new.cells ≡ self.old.cells }
        ensures room { OnOk result (room ≤ self.new.room) }
        ensures enough { room ≤ self.old.room → IsOk result }
        ensures kept { self.old.room ≤ self.new.room }
    {
        let len = self.cells.len();
        if len < room {
            self.cells.reserve_exact(room - len)?;
        }
        Ok(())
    }

    /// Takes these cells, for which there is room.
    fn put(&mut self, cells: &[i128])
        requires few { length cells.now ≤ MOST_COLUMNS }
        requires room { length cells.now ≤ self.old.room }
        ensures cells { self.new.cells ≡ Some cells.now }
        ensures kept { self.old.room ≤ self.new.room }
    {
        self.cells.clear();
        self.is_row = self.cells.extend_from_slice(cells).is_ok();
    }

    /// Takes these cells. Where there is room for them it takes no memory.
    pub fn write(&mut self, cells: &[i128]) -> Result<(), AllocError>
        requires few { length cells.now ≤ MOST_COLUMNS }
        ensures ok { OnOk result (HasTaken cells.now self.old self.new) }
        ensures err { OnErr result (HasRefused cells.now self.old self.new) }
    {
        self.make_room(cells.len())?;
        self.put(cells);
        Ok(())
    }

    /// Makes it a blank.
    fn clear(&mut self)
        ensures cells { self.new.cells ≡ None }
        ensures kept { self.old.room ≤ self.new.room }
    {
        self.cells.clear();
        self.is_row = false;
    }

    /// Does a change, which takes memory only where room is made. Without it all stays.
    pub fn change(&mut self, change: &Change) -> Result<(), AllocError>
        requires { CanChange change.now self.old }
        ensures { HasChanged change.now result self.old self.new }
    {
        match change {
            Change::Room(room) => self.make_room(*room),
            Change::Put(cells) => {
                self.put(*cells);
                Ok(())
            }
            Change::Clear => {
                self.clear();
                Ok(())
            }
        }
    }
}
