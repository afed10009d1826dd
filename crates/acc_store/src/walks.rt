//! Walks over the entries between two places.
ghost use Rattle.std.specs.Prelude.{◌≡◌, ◌∷◌, ◌++◌, [], None, MatchOption, false, true, IsTrue};
ghost use Rattle.acc_store.specs.Runs.{left, left_behind, IsForward, KeepsEnds, opened, between};

use crate::places::Place;
use crate::runs::Run;
use crate::slots::Slot;
use std::collections::btree_map::Range;

/// The entries between two places that are still to come. A walk goes forward or back, and not both.
#[derive(Drop)]
pub struct Walk<'a> {
    pub start: Place,
    pub last: Place,
    /// The runs that aren't open yet.
    pub runs: Range<'a, Place, Run>,
    /// What is left of the run that is open.
    pub open: Option<Range<'a, Place, Slot>>,
}

impl<'a> Walk<'a> {
    /// The next entry of the run that is open.
    fn next_here(&mut self) -> Option<(&'a Place, &'a Slot)>
        ensures open { MatchOption result ((opened self.old.open ≡ []) × (opened self.new.open ≡ []))
            (λ e. opened self.old.open ≡ (e.0.now, e.1.now) ∷ opened self.new.open) }
        ensures runs { self.new.runs ≡ self.old.runs }
        ensures ends { KeepsEnds self.old self.new }
    {
        match &mut self.open {
            Some(entries) => entries.next(),
            None => None,
        }
    }

    /// The last entry of the run that is open.
    fn next_back_here(&mut self) -> Option<(&'a Place, &'a Slot)>
        ensures open { MatchOption result ((opened self.old.open ≡ []) × (opened self.new.open ≡ []))
            (λ e. opened self.old.open ≡ opened self.new.open ++ (e.0.now, e.1.now) ∷ []) }
        ensures runs { self.new.runs ≡ self.old.runs }
        ensures ends { KeepsEnds self.old self.new }
    {
        match &mut self.open {
            Some(entries) => entries.next_back(),
            None => None,
        }
    }

    /// Opens a run.
    fn open(&mut self, run: &'a Run)
        requires forward { IsForward self.old }
        ensures open { opened self.new.open ≡ between self.old.start self.old.last run.now.entries }
        ensures runs { self.new.runs ≡ self.old.runs }
        ensures ends { KeepsEnds self.old self.new }
    {
        self.open = Some(run.range(&self.start..=&self.last));
    }

    /// The next entry.
    pub fn next(&mut self) -> Option<(&'a Place, &'a Slot)>
        requires forward { IsForward self.old }
        ensures left { MatchOption result (left self.old ≡ []) (λ e. left self.old ≡ (e.0.now, e.1.now) ∷ left self.new) }
        ensures ends { KeepsEnds self.old self.new }
    {
        loop {
            if let Some(entry) = self.next_here() {
                return Some(entry);
            }
            match self.runs.next() {
                Some((_, run)) => self.open(run),
                None => return None,
            }
        }
    }

    /// The last entry.
    pub fn next_back(&mut self) -> Option<(&'a Place, &'a Slot)>
        requires forward { IsForward self.old }
        ensures left { MatchOption result (left_behind self.old ≡ [])
            (λ e. left_behind self.old ≡ left_behind self.new ++ (e.0.now, e.1.now) ∷ []) }
        ensures ends { KeepsEnds self.old self.new }
    {
        loop {
            if let Some(entry) = self.next_back_here() {
                return Some(entry);
            }
            match self.runs.next_back() {
                Some((_, run)) => self.open(run),
                None => return None,
            }
        }
    }
}
