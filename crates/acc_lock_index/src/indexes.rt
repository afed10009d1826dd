//! Transactions by what they forbid.
ghost use Rattle.std.specs.Prelude.{◌≡◌, ◌↔◌, [], List, None, IfOk, OnOk, OnErr, IsSome, IsTrue};
ghost use Rattle.acc_base.specs.declared.machines.Frame.{Frame as Shown};
ghost use Rattle.acc_base.specs.declared.designs.Design.{Design as Looked};
ghost use Rattle.acc_base.specs.Entries.{at_of};
ghost use Rattle.acc_formed.specs.WellFormed.{IsWellFormed};
ghost use Rattle.acc_table.specs.Entries.{IsPointOf};
ghost use Rattle.acc_lock_index.specs.Asks.{TellsFirst};
ghost use Rattle.acc_lock_index.specs.Indexed.{StandsFor, StandsAt, Bars, AreReached, LeadsToPoint, type_of, HasNumber, IsPrepared};
ghost use Rattle.acc_lock_index.specs.Indexed.{IsWith, IsWithout, IsPut};

use crate::asks::Asked;
use crate::roles::{keys_of, reached_from};
use crate::standings::{Standing, add_one, place_of, put_one, take_one_out};
use acc_base::bounds::MOST_POINTS;
use acc_base::designs::{At, Design};
use acc_lock_holders::maps::{Holders, forget_all, make_room_for};
use indexmap::IndexMap;
use std::alloc::{AllocError, Global};
use std::marker::Model;

/// Why an index can't do what it was asked.
#[derive(Clone, Copy)]
pub enum LockError {
    /// Memory ran out.
    Memory,
}

impl From<AllocError> for LockError {
    fn from(_: AllocError) -> Self {
        LockError::Memory
    }
}

/// The flags of the points that undo steps reach from where a step leads; none where it leads to an end.
fn reached_to(d: &Design, to: Option<At>) -> [bool; MOST_POINTS]
    requires formed { IsWellFormed d.now }
    requires point { LeadsToPoint d.now to }
    ensures { AreReached d.now to result }
{
    match to {
        Some(at) => reached_from(d, at),
        None => [false; MOST_POINTS],
    }
}

/// The type of where a step leads, 0 where it leads to an end.
fn type_of(to: Option<At>) -> u32
    ensures { result ≡ type_of to }
{
    match to {
        Some(at) => at.ty,
        None => 0,
    }
}

/// Unfinished transactions by what they forbid, and by what they may come to need as they are undone. Contracts see for each its
/// number and its keys; `StandsFor` says for which transactions these stand.
#[derive(Drop)]
pub struct LockIndex {
    alloc: Global,
    standings: Vec<Standing>,
    prepared: Option<Standing>,
    holders: Holders,
}

impl Model for LockIndex {
    ghost use Rattle.acc_lock_index.specs.Indexed.{Indexed, IsKept};

    ghost Value = { Indexed };

    ghost view = { λ s. record { standings = s.standings.items; prepared = s.prepared } };

    ghost invariant = { λ s. IsKept s.holders.entries s.standings.items s.prepared };
}

impl LockIndex {
    /// No transactions. It takes no memory.
    pub fn new(alloc: Global) -> Self
        ensures empty { result.standings ≡ [] }
        ensures none { result.prepared ≡ None }
    {
        LockIndex {
            alloc,
            standings: Vec::new(alloc),
            prepared: None,
            holders: IndexMap::new(alloc),
        }
    }

    /// Whether transaction t is there.
    pub fn has(&self, t: u64) -> bool
        ensures { IsTrue result ↔ HasNumber self.now.standings t }
    {
        place_of(self.standings.as_slice(), t).is_some()
    }

    /// The lowest of the transactions but t, and then its lowest entry, that forbids the forward step at a point with these locals, or
    /// that isn't compatible with a transaction that stands, with those locals, where the step leads, if it leads to a point.
    pub fn first(
        &self,
        d: &Design,
        t: u64,
        at: At,
        locals: &[i64],
        to: Option<At>,
        to_locals: &[i64],
    ) -> Result<Option<(u64, u32)>, LockError>
        requires formed { IsWellFormed d.now }
        requires point { LeadsToPoint d.now to }
        ensures { (frames : List Shown) → StandsFor d.now frames self.now.standings
            → IfOk result (TellsFirst (Bars d.now frames t at locals.now to to_locals.now)) }
    {
        let points = reached_to(d, to);
        let asked = Asked::new(at, locals, type_of(to), &points, to_locals);
        Ok(asked.first(&self.holders, self.alloc, t, d.entries.as_slice())?)
    }
}

impl LockIndex {
    /// Lets the prepared transaction go, with the keys that no other has.
    fn forget_prepared(&mut self)
        ensures same { self.new.standings ≡ self.old.standings }
        ensures none { self.new.prepared ≡ None }
    {
        if let Some(prepared) = self.prepared.take() {
            forget_all(&mut self.holders, prepared.keys.as_slice());
        }
    }

    /// Adds transaction t, which stands at a point with these locals. Where memory runs out the list is as before. None is prepared then.
    pub fn enter(&mut self, d: &Design, t: u64, at: At, locals: &[i64]) -> Result<(), LockError>
        requires formed { IsWellFormed d.now }
        requires point { IsPointOf d.now at.ty at.point }
        requires new { ¬ HasNumber self.old.standings t }
        ensures ok { OnOk result ((old frames : List Shown) (f : Shown) → StandsFor d.now old self.old.standings
            → StandsAt f t at locals.now → IsWith f old frames → StandsFor d.now frames self.new.standings) }
        ensures err { OnErr result (self.new.standings ≡ self.old.standings) }
        ensures none { self.new.prepared ≡ None }
    {
        self.forget_prepared();
        let keys = keys_of(self.alloc, d, at, locals)?;
        self.standings.reserve(1)?;
        make_room_for(&mut self.holders, self.alloc, keys.as_slice())?;
        add_one(&mut self.standings, &mut self.holders, Standing { t, keys });
        Ok(())
    }

    /// Makes the room for transaction t to stand at a point with these locals. Where memory runs out none is prepared.
    pub fn prepare(&mut self, d: &Design, t: u64, at: At, locals: &[i64]) -> Result<(), LockError>
        requires formed { IsWellFormed d.now }
        requires point { IsPointOf d.now at.ty at.point }
        requires there { HasNumber self.old.standings t }
        ensures ok { OnOk result (IsPrepared d.now t at locals.now self.new.prepared) }
        ensures some { OnOk result (IsSome self.new.prepared) }
        ensures err { OnErr result (self.new.prepared ≡ None) }
        ensures same { self.new.standings ≡ self.old.standings }
    {
        self.forget_prepared();
        let keys = keys_of(self.alloc, d, at, locals)?;
        make_room_for(&mut self.holders, self.alloc, keys.as_slice())?;
        self.prepared = Some(Standing { t, keys });
        Ok(())
    }

    /// Puts the prepared transaction in place of the one with its number. It takes no memory.
    pub fn change(&mut self)
        requires some { IsSome self.old.prepared }
        ensures put { (d : Looked) (old frames : List Shown) (f : Shown) → StandsFor d old self.old.standings
            → IsPrepared d f.t (at_of f) f.locals self.old.prepared → IsPut f old frames → StandsFor d frames self.new.standings }
        ensures none { self.new.prepared ≡ None }
    {
        if let Some(next) = self.prepared.take() {
            put_one(&mut self.standings, &mut self.holders, next);
        }
    }

    /// Takes a transaction out. It takes no memory.
    pub fn leave(&mut self, t: u64)
        requires there { HasNumber self.old.standings t }
        ensures dropped { (d : Looked) (old frames : List Shown) → StandsFor d old self.old.standings → IsWithout t old frames
            → StandsFor d frames self.new.standings }
        ensures none { self.new.prepared ≡ None }
    {
        self.forget_prepared();
        take_one_out(&mut self.standings, &mut self.holders, t);
    }
}
