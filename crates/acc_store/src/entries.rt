//! Entries in the order of their places: rows, and blanks that are no rows.
ghost use Rattle.std.specs.Prelude.{◌≡◌, ◌≤◌, ◌<◌, ◌^◌, [], length, IfSome, Some, None, cond, OnOk, OnErr, option_copied, false};
ghost use Rattle.std.specs.Prelude.{is_some};
ghost use Rattle.std.specs.Map.{remove_entry};
ghost use Rattle.std.specs.BTreeMap.{insert_entry, is_at as at};
ghost use Rattle.acc_base.specs.Tables.{place_cmp};
ghost use Rattle.acc_store.specs.Rows.{entry_at, IsUp};
ghost use Rattle.acc_store.specs.Runs.{Alters, AreLaid, all_of};
ghost use Rattle.std.specs.Prelude.{◌-◌};
ghost use Rattle.acc_store.specs.Changes.{CanChange, HasChanged, HasRefused};
ghost use Rattle.acc_store.specs.Landings.{HasCome};

use crate::places::Place;
use crate::runs::{Landing, Layout, Runs, change_at, land, put_at, remove_at, slot_at};
use crate::slots::{Change, Slot};
use acc_base::bounds::MOST_COLUMNS;
use std::alloc::{AllocError, Global};
use std::collections::BTreeMap;
use std::marker::Model;

/// Entries in the order of their places; a blank one is no row.
#[derive(Drop)]
pub struct Entries {
    runs: Runs,
    layout: Layout,
    /// How many entries there are.
    len: usize,
}

impl Model for Entries {
    ghost use Rattle.std.specs.Prelude.{◌≡◌, length};
    ghost use Rattle.acc_store.specs.Runs.{Kept, AreLaid, all_of};

    ghost Value = { Kept };

    ghost view = { λ s. record { entries = all_of s.runs } };

    ghost invariant = { λ s. AreLaid s.runs × (s.len ≡ length (all_of s.runs)) };
}

/// How many entries may fill a run: none where no entry more can be counted.
fn full_for(layout: Layout, len: usize) -> usize
    ensures { 0 < result → len < 2 ^ 64 - 1 }
{
    if len == usize::MAX { 0 } else { layout.full() }
}

impl Entries {
    /// No entries.
    pub fn new(alloc: Global, layout: Layout) -> Self
        ensures { result.entries ≡ [] }
    {
        Entries {
            runs: BTreeMap::new(alloc),
            layout,
            len: 0,
        }
    }

    /// The runs in which they stand.
    pub fn runs(&self) -> &Runs
        ensures entries { all_of result.now ≡ self.now.entries }
        ensures laid { AreLaid result.now }
        ensures few { length self.now.entries < 2 ^ 64 }
    {
        let _len = self.len;
        &self.runs
    }

    /// What stands at a place.
    pub fn get(&self, place: &Place) -> Option<&Slot>
        ensures value { option_copied result ≡ entry_at place.now self.now.entries }
    {
        slot_at(&self.runs, place)
    }

    /// Changes what stands at a place.
    pub fn change(&mut self, place: &Place, change: &Change) -> Result<(), AllocError>
        requires can { IfSome (entry_at place.now self.old.entries) (CanChange change.now) }
        ensures altered { Alters place.now (HasChanged change.now result) self.old.entries self.new.entries }
    {
        change_at(&mut self.runs, place, change)
    }

    /// Adds an entry. Where memory runs out the entries are as before.
    pub fn insert(&mut self, alloc: Global, place: Place, slot: Slot) -> Result<(), AllocError>
        requires absent { entry_at place self.old.entries ≡ None }
        ensures entries { OnOk result (self.new.entries ≡ insert_entry place_cmp self.old.entries place slot) }
        ensures err { OnErr result (self.new.entries ≡ self.old.entries) }
    {
        if self.len == usize::MAX {
            return Err(AllocError);
        }
        put_at(&mut self.runs, alloc, self.layout, place, slot)?;
        self.len += 1;
        Ok(())
    }

    /// Puts a row of these cells at a place. Where there is room for them it takes no memory.
    pub fn write(&mut self, alloc: Global, place: Place, cells: &[i128]) -> Result<(), AllocError>
        requires few { length cells.now ≤ MOST_COLUMNS }
        requires up { IsUp self.old.entries }
        ensures ok { OnOk result (HasCome place cells.now self.old.entries self.new.entries) }
        ensures err { OnErr result (Alters place (HasRefused cells.now) self.old.entries self.new.entries) }
    {
        let full = full_for(self.layout, self.len);
        match land(&mut self.runs, alloc, full, place, cells)? {
            Landing::There => Ok(()),
            Landing::Came => {
                self.len += 1;
                Ok(())
            }
            Landing::Back(place) => {
                let slot = Slot::row(alloc, cells)?;
                self.insert(alloc, place, slot)
            }
        }
    }

    /// Removes the entry at a place, if there is one.
    pub fn remove(&mut self, place: &Place)
        ensures entries { self.new.entries ≡ remove_entry (at (place_cmp place.now)) self.old.entries }
    {
        if remove_at(&mut self.runs, place) {
            self.len -= 1;
        }
    }
}
