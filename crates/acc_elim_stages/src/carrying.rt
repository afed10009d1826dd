//! One more inequality, carried along in the path of a stage of equations that is kept.
ghost use Rattle.std.specs.Prelude.{◌≡◌, ◌∷◌, ◌++◌, [], false, reverse, Ok, IfOk, IfSome, OnOk};
ghost use Rattle.std.specs.List.{list_any};
ghost use Rattle.acc_elim_systems.specs.Systems.{repeats};
ghost use Rattle.acc_elim_stages.specs.Followed.{told, listed};
ghost use Rattle.acc_elim_stages.specs.Carried.{has_unknown, note_of, count_with, noted, noted_once, all_noted, noticed_at, noticed};
ghost use Rattle.acc_elim_stages.specs.Carried.{IsCarriedAlong};

use crate::following::{add_left, follow_step, left_first};
use crate::stages::{Path, Step};
use acc_base::sequences::Seq;
use acc_elim_systems::systems::{MOST_RELATIONS, form_of};
use acc_rows::rows::Row;
use acc_rows::stops::Stop;
use std::alloc::{AllocError, Global};
use std::mem;

/// What a step notes of one more relation: the form in which it was made there, and whether it is left.
#[derive(Drop)]
pub struct Note {
    pub made: Option<Row>,
    pub is_left: bool,
}

/// The notes of the steps, and what is left of a relation behind them.
#[derive(Drop)]
pub struct Trail {
    pub notes: Seq<Note>,
    pub left: Option<Row>,
}

fn has_unknown(unknown: u32, rest: &Option<Row>) -> bool
    ensures { result ≡ has_unknown unknown rest.now }
{
    match rest {
        None => false,
        Some(row) => row.has(unknown),
    }
}

/// What a step notes where it is known whether it changed the relation.
fn note_of(alloc: Global, is_changed: bool, left: &Option<Row>) -> Result<Note, AllocError>
    ensures { IfOk result (λ n. n ≡ note_of is_changed left.now) }
{
    match left {
        None => Ok(Note {
            made: None,
            is_left: false,
        }),
        Some(row) => {
            let made = if is_changed {
                Some(form_of(alloc, row)?)
            } else {
                None
            };
            Ok(Note {
                made,
                is_left: true,
            })
        }
    }
}

/// What is left of a relation behind a step, whose note comes behind the others.
fn notice(
    alloc: Global,
    first: &[Row],
    earlier: &[Step],
    step: &Step,
    rest: Option<Row>,
    notes: &mut Seq<Note>,
) -> Result<Option<Row>, Stop>
    requires { IfSome rest (λ row. told first.now (reverse earlier.now) row ≡ false) }
    ensures value { IfOk result (λ left. noticed_at first.now (reverse earlier.now) step.now (reverse notes.old, rest)
        ≡ Ok (reverse notes.new, left)) }
    ensures untold { IfOk result (λ left. IfSome left (λ row. told first.now (step.now ∷ reverse earlier.now) row ≡ false)) }
{
    let is_changed = has_unknown(step.aside.0, &rest);
    let left = follow_step(alloc, first, earlier, step, rest)?;
    notes.push(note_of(alloc, is_changed, &left)?)?;
    Ok(left)
}

/// What the steps note of a relation, and what is left of it behind them.
fn trail_of(alloc: Global, path: &Path, rest: Option<Row>) -> Result<Trail, Stop>
    requires { IfSome rest (λ row. list_any (repeats row) path.now.first ≡ false) }
    ensures { IfOk result (λ t. noticed path.now.first (reverse path.now.steps) rest ≡ Ok (reverse t.notes, t.left)) }
{
    let first = path.first.as_slice();
    let steps = path.steps.as_slice();
    let mut notes = Seq::new(alloc);
    let mut left = rest;
    for place in 0..steps.len() {
        left = notice(
            alloc,
            first,
            &steps[..place],
            &steps[place],
            left,
            &mut notes,
        )?;
    }
    Ok(Trail { notes, left })
}

/// How many relations a system has with one more, where one is left. It never has more than `MOST_RELATIONS`.
fn count_with(is_left: bool, count: usize) -> usize
    ensures { result ≡ count_with is_left count }
{
    if is_left && count < MOST_RELATIONS {
        count + 1
    } else {
        count
    }
}

/// A step gets its note.
fn note_step(step: &mut Step, note: Note) -> Result<(), AllocError>
    ensures { OnOk result (step.new ≡ noted step.old note) }
{
    add_left(&mut step.made, note.made)?;
    step.count = count_with(note.is_left, step.count);
    Ok(())
}

/// A step gets its note, where there is one.
fn note_once(step: &mut Step, note: Option<Note>) -> Result<(), AllocError>
    ensures { OnOk result (step.new ≡ noted_once step.old note) }
{
    match note {
        None => Ok(()),
        Some(note) => note_step(step, note),
    }
}

/// Puts a step with its note behind the others.
fn push_noted(all: &mut Vec<Step>, mut step: Step, note: Option<Note>) -> Result<(), AllocError>
    ensures { OnOk result (all.new.items ≡ all.old.items ++ noted_once step note ∷ []) }
{
    note_once(&mut step, note)?;
    all.push(step)?;
    Ok(())
}

/// Steps with their notes.
fn all_noted(alloc: Global, steps: Vec<Step>, notes: Seq<Note>) -> Result<Seq<Step>, AllocError>
    ensures { IfOk result (λ ss. ss ≡ reverse (all_noted (reverse steps.items) (reverse notes))) }
{
    let mut rest = steps;
    let mut notes = notes;
    let mut all = Vec::new(alloc);
    while let Some(step) = rest.pop() {
        push_noted(&mut all, step, notes.pop())?;
    }
    all.reverse();
    Ok(Seq::from_vec(all))
}

/// The steps get their notes.
fn note_all(alloc: Global, steps: &mut Seq<Step>, notes: Seq<Note>) -> Result<(), AllocError>
    ensures { OnOk result (steps.new ≡ reverse (all_noted (reverse steps.old) (reverse notes))) }
{
    let old = mem::replace(steps, Seq::new(alloc)).into_vec();
    *steps = all_noted(alloc, old, notes)?;
    Ok(())
}

/// A path gets this note before its steps, and these for them.
fn note_path(
    alloc: Global,
    path: &mut Path,
    begun: Note,
    notes: Seq<Note>,
) -> Result<(), AllocError>
    ensures first { OnOk result (path.new.first ≡ path.old.first ++ listed begun.made) }
    ensures steps { OnOk result (path.new.steps ≡ reverse (all_noted (reverse path.old.steps) (reverse notes))) }
{
    add_left(&mut path.first, begun.made)?;
    note_all(alloc, &mut path.steps, notes)
}

/// One more inequality is carried along: what is left of it, or isn't, at each step is noted there. Answers what is left behind them. An
/// equation isn't carried along rightly: it may be set aside.
pub fn carry(alloc: Global, path: &mut Path, row: Row) -> Result<Option<Row>, Stop>
    ensures { IfOk result (IsCarriedAlong path.old row path.new) }
{
    let rest = left_first(path.first.as_slice(), row)?;
    let begun = note_of(alloc, true, &rest)?;
    let Trail { notes, left } = trail_of(alloc, path, rest)?;
    note_path(alloc, path, begun, notes)?;
    Ok(left)
}
