//! Who bars a step, found by keys.
ghost use Rattle.std.specs.Prelude.{◌≡◌, ◌≤◌, length, None, IfOk};
ghost use Rattle.acc_lock_index.specs.Roles.{standing_key, coming_key, undoing_key, held_values, step_values, may_stand, may_undo};
ghost use Rattle.acc_lock_index.specs.Roles.{one_if};
ghost use Rattle.acc_lock_index.specs.Asks.{is_of, asks, lowest_under, nearer, first_from};

use crate::roles::{held_values, may_stand, may_undo, step_values};
use acc_base::bounds::{MOST_ENTRIES, MOST_POINTS};
use acc_base::designs::{At, Entry, Side};
use acc_lock_holders::keys::{Key, Role};
use acc_lock_holders::maps::{Holders, lowest_under};
use std::alloc::{AllocError, Global};
use std::marker::Model;

/// A step at a point with these locals, and the type, the flags of the points that undo steps reach, and the locals of where it leads.
/// Where it leads to an end no flag is set.
#[derive(Drop)]
pub struct Asked<'a> {
    at: At,
    locals: &'a [i64],
    ty: u32,
    points: &'a [bool; MOST_POINTS],
    to_locals: &'a [i64],
}

impl<'a> Model for Asked<'a> {
    ghost use Rattle.acc_lock_index.specs.Asks.{Asked as Seen};

    ghost Value = { Seen };

    ghost view = { λ a. record { at = a.at; locals = a.locals.now; ty = a.ty; points = a.points.now; to_locals = a.to_locals.now } };
}

impl<'a> Asked<'a> {
    /// What is asked for a step that leads so.
    pub fn new(
        at: At,
        locals: &'a [i64],
        ty: u32,
        points: &'a [bool; MOST_POINTS],
        to_locals: &'a [i64],
    ) -> Self
        ensures { result ≡ record { at = at; locals = locals.now; ty = ty; points = points.now; to_locals = to_locals.now } }
    {
        Asked {
            at,
            locals,
            ty,
            points,
            to_locals,
        }
    }

    /// The lower of a number and of those that stand at an entry's held point beside the step.
    fn beside_standing(
        &self,
        holders: &Holders,
        alloc: Global,
        t: u64,
        best: Option<u64>,
        n: u32,
        entry: &Entry,
    ) -> Result<Option<u64>, AllocError>
        ensures { IfOk result (λ r. r ≡ lowest_under holders.now.entries t best
            (one_if (is_of self.now.at entry.now) (standing_key n (step_values entry.now self.now.locals)))) }
    {
        if entry.side == Side::Next && entry.step == self.at {
            let key = Key::new(Role::Standing, n, step_values(alloc, entry, self.locals)?);
            Ok(lowest_under(holders, &key, t, best))
        } else {
            Ok(best)
        }
    }

    /// The lower of a number and of those that may come to stand where an undo step to which this may come is forbidden.
    fn beside_coming(
        &self,
        holders: &Holders,
        alloc: Global,
        t: u64,
        best: Option<u64>,
        n: u32,
        entry: &Entry,
    ) -> Result<Option<u64>, AllocError>
        ensures { IfOk result (λ r. r ≡ lowest_under holders.now.entries t best
            (one_if (may_undo self.now.ty self.now.points entry.now) (coming_key n (step_values entry.now self.now.to_locals)))) }
    {
        if may_undo(self.ty, self.points, entry) {
            let key = Key::new(Role::Coming, n, step_values(alloc, entry, self.to_locals)?);
            Ok(lowest_under(holders, &key, t, best))
        } else {
            Ok(best)
        }
    }

    /// The lower of a number and of those that may come to an undo step that is forbidden where this may come to stand.
    fn beside_undoing(
        &self,
        holders: &Holders,
        alloc: Global,
        t: u64,
        best: Option<u64>,
        n: u32,
        entry: &Entry,
    ) -> Result<Option<u64>, AllocError>
        ensures { IfOk result (λ r. r ≡ lowest_under holders.now.entries t best
            (one_if (may_stand self.now.ty self.now.points entry.now) (undoing_key n (held_values entry.now self.now.to_locals)))) }
    {
        if may_stand(self.ty, self.points, entry) {
            let key = Key::new(Role::Undoing, n, held_values(alloc, entry, self.to_locals)?);
            Ok(lowest_under(holders, &key, t, best))
        } else {
            Ok(best)
        }
    }

    /// The lowest of those but t that bar the step through an entry.
    fn lowest_at(
        &self,
        holders: &Holders,
        alloc: Global,
        t: u64,
        n: u32,
        entry: &Entry,
    ) -> Result<Option<u64>, AllocError>
        ensures { IfOk result (λ r. r ≡ lowest_under holders.now.entries t None (asks self.now n entry.now)) }
    {
        let standing = self.beside_standing(holders, alloc, t, None, n, entry)?;
        let coming = self.beside_coming(holders, alloc, t, standing, n, entry)?;
        self.beside_undoing(holders, alloc, t, coming, n, entry)
    }

    /// The lowest of those but t that bar the step, and the lowest entry through which it does.
    pub fn first(
        &self,
        holders: &Holders,
        alloc: Global,
        t: u64,
        entries: &[Entry],
    ) -> Result<Option<(u64, u32)>, AllocError>
        requires few { length entries.now ≤ MOST_ENTRIES }
        ensures { IfOk result (λ r. r ≡ first_from holders.now.entries t self.now None 1 entries.now) }
    {
        let mut best = None;
        for (i, entry) in entries.iter().enumerate() {
            let n = i as u32 + 1;
            best = nearer(best, self.lowest_at(holders, alloc, t, n, entry)?, n);
        }
        Ok(best)
    }
}

/// A holder with the entry's number, unless one with a lower number or this one is known.
fn nearer(best: Option<(u64, u32)>, here: Option<u64>, n: u32) -> Option<(u64, u32)>
    ensures { result ≡ nearer best here n }
{
    match here {
        None => best,
        Some(h) => match best {
            None => Some((h, n)),
            Some(b) => { if h < b.0 { Some((h, n)) } else { Some(b) } }
        },
    }
}
