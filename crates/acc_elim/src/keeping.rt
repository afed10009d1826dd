//! Relations that are read once, and whose stage of equations is kept, for many searches.
ghost use Rattle.std.specs.Prelude.{◌≡◌, ◌≤◌, ◌∷◌, ◌++◌, [], ℕ, None, length, IfOk, IfSome};
ghost use Rattle.acc_base.specs.Computing.{Answers, Leaves, steps};
ghost use Rattle.acc_rows.specs.Answers.{tells};
ghost use Rattle.acc_elim_readings.specs.Readings.{read_next};
ghost use Rattle.acc_elim_points.specs.Searches.{searched};
ghost use Rattle.acc_elim_known.specs.Ends.{IsKnown, IsKnownWithin};
ghost use Rattle.acc_elim_decisions.specs.Readings.{unread, read_of, found_in, AreRead};
ghost use Rattle.acc_elim.specs.Keepings.{IsKept, IsCarriedTo, AreKept};

use acc_base::forms::Rel;
use acc_base::sequences::Seq;
use acc_elim_decisions::reading::{Reading, small_length};
use acc_elim_known::known::{Known, carried_on, found, found_with, known_of};
use acc_elim_readings::readings::read_next;
use acc_elim_stages::copies::copied_rows;
use acc_rows::rows::Row;
use acc_rows::stops::Stop;
use std::alloc::{AllocError, Global};

/// What was read, and what is kept of its elimination, once it was asked about.
#[derive(Drop)]
pub struct Kept {
    pub reading: Reading,
    pub known: Option<Known>,
}

impl Kept {
    /// Nothing is read.
    pub fn new(alloc: Global) -> Self
        ensures read { read_of result.reading ≡ unread }
        ensures count { result.reading.count ≡ 0 }
        ensures known { result.known ≡ None }
    {
        Kept {
            reading: Reading::new(alloc),
            known: None,
        }
    }

    /// Forgets all.
    fn forget(&mut self)
        ensures read { read_of self.new.reading ≡ unread }
        ensures count { self.new.reading.count ≡ 0 }
        ensures known { self.new.known ≡ None }
    {
        self.reading.forget();
        self.known = None;
    }

    /// Reads the relations that aren't read yet, and carries them along in what is kept of the others' elimination.
    fn carry(&mut self, alloc: Global, known: Known, rels: &[Rel]) -> Result<(), Stop>
        requires read { AreRead rels.now self.old.reading }
        requires known { IsKept self.old.reading known }
        requires gone { self.old.known ≡ None }
        ensures kept { AreKept rels.now self.new }
        ensures all { Leaves tells result (read_of self.new.reading) (steps read_next unread rels.now) }
    {
        let before = self.reading.rows.len();
        self.reading.catch_up(alloc, rels)?;
        self.known = carried(alloc, known, before, &self.reading);
        Ok(())
    }

    /// Reads the relations that aren't read yet.
    fn catch_up(&mut self, alloc: Global, rels: &[Rel]) -> Result<(), Stop>
        requires { AreKept rels.now self.old }
        ensures kept { AreKept rels.now self.new }
        ensures all { Leaves tells result (read_of self.new.reading) (steps read_next unread rels.now) }
    {
        if self.reading.count >= rels.len() {
            return Ok(());
        }
        match self.known.take() {
            None => self.reading.catch_up(alloc, rels),
            Some(known) => self.carry(alloc, known, rels),
        }
    }
}

/// What is kept of the first rows with the others of a reading behind them; `None` where nothing can be kept.
fn carried(alloc: Global, known: Known, before: usize, reading: &Reading) -> Option<Known>
    requires { before ≤ length reading.now.rows.items }
    ensures { IfSome result (IsCarriedTo reading.now before known) }
{
    match small_length(reading.names.len()) {
        Err(_) => None,
        Ok(unknowns) => carried_on(alloc, known, unknowns, &reading.rows.as_slice()[before..]),
    }
}

/// What is kept of the elimination is taken out; it is made where it isn't there.
fn taken(alloc: Global, kept: &mut Option<Known>, reading: &Reading) -> Result<Known, AllocError>
    requires { IfSome kept.old (IsKept reading.now) }
    ensures value { IfOk result (IsKept reading.now) }
    ensures gone { kept.new ≡ None }
{
    match kept.take() {
        Some(known) => Ok(known),
        None => {
            let unknowns = small_length(reading.names.len())?;
            let rows = copied_rows(alloc, reading.rows.as_slice())?;
            known_of(alloc, unknowns, rows)
        }
    }
}

/// The point at which relations hold, or what stops the search. They are read only once, and their point is found only once.
pub fn searched(alloc: Global, kept: &mut Kept, rels: &[Rel]) -> Result<Seq<(i128, i128)>, Stop>
    requires { AreKept rels.now kept.old }
    ensures kept { AreKept rels.now kept.new }
    ensures value { Answers tells result (searched rels.now) }
{
    kept.catch_up(alloc, rels)?;
    let mut known = taken(alloc, &mut kept.known, &kept.reading)?;
    let end = found(alloc, &mut known);
    kept.known = Some(known);
    end
}

/// The point of what was read with one more row behind it, whose unknowns were read. What is kept of the others comes back.
fn found_last(
    alloc: Global,
    slot: &mut Option<Known>,
    mut known: Known,
    reading: &Reading,
    row: Row,
) -> Result<Seq<(i128, i128)>, Stop>
    requires known { IsKnownWithin reading.now.rows.items (length reading.now.names.items) known }
    requires gone { slot.old ≡ None }
    ensures kept { IfSome slot.new (λ k. (n : ℕ) → IsKnown reading.now.rows.items n known → IsKnown reading.now.rows.items n k) }
    ensures value { Answers tells result (found_in (reading.now.names.items, reading.now.rows.items ++ row ∷ [])) }
{
    let unknowns = small_length(reading.names.len())?;
    let rows = reading.rows.as_slice();
    let end = found_with(alloc, &mut known, rows, unknowns, row);
    *slot = Some(known);
    end
}

/// The same where one more relation, which isn't kept, comes behind the others.
pub fn searched_with(
    alloc: Global,
    kept: &mut Kept,
    rels: &[Rel],
    last: &Rel,
) -> Result<Seq<(i128, i128)>, Stop>
    requires { AreKept rels.now kept.old }
    ensures kept { AreKept rels.now kept.new }
    ensures value { Answers tells result (searched (rels.now ++ last.now ∷ [])) }
{
    kept.catch_up(alloc, rels)?;
    let known = taken(alloc, &mut kept.known, &kept.reading)?;
    let count = kept.reading.names.len();
    let place = small_length(kept.reading.rows.len())?;
    match read_next(alloc, &mut kept.reading.names, place, last) {
        Err(stop) => {
            kept.forget();
            Err(stop)
        }
        Ok(row) => {
            let end = found_last(alloc, &mut kept.known, known, &kept.reading, row);
            kept.reading.names.truncate(count);
            end
        }
    }
}
