//! Relations that are read once, for many searches.
ghost use Rattle.std.specs.Prelude.{◌≡◌, length, IfOk, OnOk};
ghost use Rattle.std.specs.List.{fold};
ghost use Rattle.acc_base.specs.Computing.{Leaves, steps};
ghost use Rattle.acc_rows.specs.Answers.{tells};
ghost use Rattle.acc_elim_readings.specs.Readings.{with_rel, unknowns_of, read_next};
ghost use Rattle.acc_elim_decisions.specs.Readings.{unread, read_of, AreRead};

use acc_base::forms::{Rel, Unknown};
use acc_base::sequences::copied;
use acc_elim_readings::readings::{self, add_names};
use acc_rows::rows::Row;
use acc_rows::stops::Stop;
use std::alloc::{AllocError, Global};

/// How many relations were read, their unknowns in the order of first appearance, and their rows.
#[derive(Drop)]
pub struct Reading {
    pub count: usize,
    pub names: Vec<Unknown>,
    pub rows: Vec<Row>,
}

/// A length that is a number of 32 bits.
pub fn small_length(length: usize) -> Result<u32, AllocError>
    ensures { IfOk result (λ n. n ≡ length) }
{
    if length > u32::MAX as usize {
        return Err(AllocError);
    }
    Ok(length as u32)
}

fn copied_names(alloc: Global, names: &[Unknown]) -> Result<Vec<Unknown>, AllocError>
    ensures { IfOk result (λ v. v.items ≡ names.now) }
{
    let mut again = Vec::new(alloc);
    for name in names {
        again.push(copied(name)?)?;
    }
    Ok(again)
}

/// The unknowns of relations, after those that stand there.
fn add_unknowns(names: &mut Vec<Unknown>, rels: &[Rel]) -> Result<(), AllocError>
    ensures { OnOk result (names.new.items ≡ fold with_rel names.old.items rels.now) }
{
    for rel in rels {
        add_names(names, rel.form.terms.as_slice())?;
    }
    Ok(())
}

/// The unknowns of relations, each once, in the order of first appearance.
pub fn unknowns(alloc: Global, reading: &Reading, rels: &[Rel]) -> Result<Vec<Unknown>, AllocError>
    requires { AreRead rels.now reading.now }
    ensures { IfOk result (λ names. names.items ≡ unknowns_of rels.now) }
{
    let mut names = copied_names(alloc, reading.names.as_slice())?;
    add_unknowns(&mut names, &rels[reading.count..])?;
    Ok(names)
}

/// One more relation is read.
fn read(alloc: Global, names: &mut Vec<Unknown>, rows: &mut Vec<Row>, rel: &Rel) -> Result<(), Stop>
    ensures { Leaves tells result (names.new.items, rows.new.items) (read_next (names.old.items, rows.old.items) rel.now) }
{
    let place = small_length(rows.len())?;
    let row = readings::read_next(alloc, names, place, rel)?;
    rows.push(row)?;
    Ok(())
}

/// More relations are read, one after the other.
fn read_all(
    alloc: Global,
    names: &mut Vec<Unknown>,
    rows: &mut Vec<Row>,
    rels: &[Rel],
) -> Result<(), Stop>
    ensures { Leaves tells result (names.new.items, rows.new.items) (steps read_next (names.old.items, rows.old.items) rels.now) }
{
    for rel in rels {
        read(alloc, names, rows, rel)?;
    }
    Ok(())
}

impl Reading {
    /// Nothing is read.
    pub fn new(alloc: Global) -> Self
        ensures read { read_of result ≡ unread }
        ensures count { result.count ≡ 0 }
    {
        Reading {
            count: 0,
            names: Vec::new(alloc),
            rows: Vec::new(alloc),
        }
    }

    /// Forgets what was read.
    pub fn forget(&mut self)
        ensures read { read_of self.new ≡ unread }
        ensures count { self.new.count ≡ 0 }
    {
        self.count = 0;
        self.names.clear();
        self.rows.clear();
    }

    /// Reads the relations that aren't read yet. Where that stops, what was read is forgotten.
    pub fn catch_up(&mut self, alloc: Global, rels: &[Rel]) -> Result<(), Stop>
        requires { AreRead rels.now self.old }
        ensures read { AreRead rels.now self.new }
        ensures all { Leaves tells result (read_of self.new) (steps read_next unread rels.now) }
    {
        let rest = &rels[self.count..];
        let end = read_all(alloc, &mut self.names, &mut self.rows, rest);
        match end {
            Ok(()) => self.count = rels.len(),
            Err(_) => self.forget(),
        }
        end
    }
}
