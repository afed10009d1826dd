//! Systems of relations: what is dropped, and what ends an elimination.
ghost use Rattle.std.specs.Prelude.{◌≡◌, ◌<◌, [], length, position, Ok, IfSome, IfOk, OnOk, MatchResult};
ghost use Rattle.std.specs.List.{list_any};
ghost use Rattle.acc_base.specs.Computing.{Answers, Leaves, steps};
ghost use Rattle.acc_rows.specs.Answers.{tells, StoppedBy};
ghost use Rattle.acc_elim_systems.specs.Systems.{is_false, is_equation_with, repeats, is_constant, admitted, Takes, replaced, put_aside};
ghost use Rattle.acc_elim_systems.specs.Systems.{set_aside, whole, parted_with, eliminated_left};
ghost use Rattle.acc_elim_systems.specs.Repetitions.{AreApart, TellsOf, StillTellsOf, GrowTogether, StillBehind, TellBehind};
ghost use Rattle.acc_base.specs.Items.{numbers_from};
ghost use Rattle.acc_elim_systems.specs.Systems.{IsParted, crossed_once, crossed_with, or_else, crossed, unbounded, eliminated};

use acc_base::sequences::{Seq, copied};
use acc_rows::rows::{Row, cleared, crossing};
use acc_rows::stops::Stop;
use std::alloc::{AllocError, Global};
use std::mem;

/// The most relations of a system.
pub const MOST_RELATIONS: usize = 4096;

/// Whether a relation without unknowns is false.
pub fn is_false(row: &Row) -> bool
    ensures { result ≡ is_false row.now }
{
    if row.equal {
        row.constant != 0
    } else {
        row.constant > 0
    }
}

/// Whether a relation has the form of another and is an equation as the other is.
fn repeats(row: &Row, kept: &Row) -> bool
    ensures { result ≡ repeats row.now kept.now }
{
    kept.constant == row.constant && kept.equal == row.equal && kept.terms == row.terms
}

/// Whether a relation has no unknown.
pub fn is_constant(row: &Row) -> bool
    ensures { result ≡ is_constant row.now }
{
    row.terms.is_empty()
}

/// Whether a relation repeats one of these.
pub fn is_repetition(rows: &[Row], row: &Row) -> bool
    ensures { result ≡ list_any (repeats row.now) rows.now }
{
    for kept in rows {
        if repeats(row, kept) {
            return true;
        }
    }
    false
}

/// One more relation, where it is known whether it repeats one.
fn keep(rows: &mut Vec<Row>, row: Row, is_repeated: bool) -> Result<(), Stop>
    requires { is_repeated ≡ list_any (repeats row) rows.old.items }
    ensures { Leaves tells result rows.new.items (admitted rows.old.items row) }
{
    if is_constant(&row) {
        if is_false(&row) {
            return Err(Stop::Refuted(row));
        }
        return Ok(());
    }
    if is_repeated {
        return Ok(());
    }
    if rows.len() >= MOST_RELATIONS {
        return Err(Stop::Many);
    }
    rows.push(row)?;
    Ok(())
}

/// One more relation. The cost is that of comparing it with each of the system.
pub fn admit(rows: &mut Vec<Row>, row: Row) -> Result<(), Stop>
    ensures { Leaves tells result rows.new.items (admitted rows.old.items row) }
{
    let is_repeated = is_repetition(rows.as_slice(), &row);
    keep(rows, row, is_repeated)
}

/// The place of the first equation that has the unknown.
fn equation_place(rows: &[Row], unknown: u32) -> Option<usize>
    ensures value { result ≡ position (is_equation_with unknown) rows.now }
    ensures within { IfSome result (λ i. i < length rows.now) }
{
    rows.iter().position(|row| row.equal && row.has(unknown))
}

/// The first equation that has the unknown is taken out of the relations; where there is none, they stay.
pub fn take_equation(rows: &mut Vec<Row>, unknown: u32) -> Option<Row>
    ensures { Takes unknown rows.old.items rows.new.items result }
{
    match equation_place(rows.as_slice(), unknown) {
        Some(place) => Some(rows.remove(place)),
        None => None,
    }
}

/// A relation by which repetitions of it are told: itself, without its multipliers.
pub fn form_of(alloc: Global, row: &Row) -> Result<Row, AllocError>
    ensures { IfOk result (λ r. r ≡ record row.now { by = [] }) }
{
    Ok(Row {
        terms: copied(&row.terms)?,
        constant: row.constant,
        equal: row.equal,
        by: Seq::new(alloc),
    })
}

/// One more relation that has just been made.
fn admit_made(alloc: Global, made: &mut Vec<Row>, kept: &mut Vec<Row>, row: Row) -> Result<(), Stop>
    ensures value { Leaves tells result kept.new.items (admitted kept.old.items row) }
    ensures told { OnOk result (GrowTogether made.old.items kept.old.items made.new.items kept.new.items) }
{
    let before = kept.len();
    admit(kept, row)?;
    if before < kept.len() {
        made.push(form_of(alloc, &kept[before])?)?;
    }
    Ok(())
}

/// One more relation, without the unknown of the equation. Where it doesn't have it, it can only repeat one of those that were made.
fn replace(
    alloc: Global,
    unknown: u32,
    equation: &Row,
    made: &mut Vec<Row>,
    kept: &mut Vec<Row>,
    row: Row,
) -> Result<(), Stop>
    requires { TellsOf made.old.items kept.old.items row }
    ensures value { Leaves tells result kept.new.items (replaced unknown equation.now kept.old.items row) }
    ensures told { OnOk result (StillTellsOf made.old.items kept.old.items made.new.items kept.new.items row) }
    ensures behind { OnOk result (StillBehind unknown row made.old.items kept.old.items made.new.items kept.new.items) }
{
    if !row.has(unknown) {
        let is_repeated = is_repetition(made.as_slice(), &row);
        return keep(kept, row, is_repeated);
    }
    let row = cleared(alloc, unknown, equation, row)?;
    admit_made(alloc, made, kept, row)
}

/// A system without an unknown, and those of its relations that were made for that, without their multipliers.
#[derive(Drop)]
pub struct Replaced {
    pub rows: Seq<Row>,
    pub made: Seq<Row>,
}

/// The relations one after the other, each without the unknown of the equation. The cost is that of comparing each with those that are
/// made, and each of these with each.
pub fn replace_all(
    alloc: Global,
    unknown: u32,
    equation: &Row,
    rows: Vec<Row>,
) -> Result<Replaced, Stop>
    requires { AreApart rows.items }
    ensures value { MatchResult result (λ s. steps (replaced unknown equation.now) [] rows.items ≡ Ok s.rows)
        (λ e. StoppedBy e (steps (replaced unknown equation.now) [] rows.items)) }
    ensures told { IfOk result (TellBehind unknown rows.items) }
{
    let mut kept = Vec::new(alloc);
    let mut made = Vec::new(alloc);
    let mut rest = rows;
    rest.reverse();
    while let Some(row) = rest.pop() {
        replace(alloc, unknown, equation, &mut made, &mut kept, row)?;
    }
    Ok(Replaced {
        rows: Seq::from_vec(kept),
        made: Seq::from_vec(made),
    })
}

/// A system, the equations set aside, each for its unknown, and the unknowns that are left.
#[derive(Drop)]
pub struct Reduced {
    pub rows: Seq<Row>,
    pub aside: Seq<(u32, Row)>,
    pub left: Seq<u32>,
}

/// An equation that was taken for the unknown is set aside. The others are the system without the unknown.
fn put_aside(
    alloc: Global,
    state: &mut Reduced,
    unknown: u32,
    equation: Row,
    others: Vec<Row>,
) -> Result<(), Stop>
    requires { AreApart others.items }
    ensures { Leaves tells result state.new (put_aside state.old unknown (equation, others.items)) }
{
    let Replaced { rows, made: _ } = replace_all(alloc, unknown, &equation, others)?;
    state.rows = rows;
    state.aside.push((unknown, equation))?;
    Ok(())
}

/// The system without the unknown where an equation has it; else the unknown is left.
fn set_aside(alloc: Global, state: &mut Reduced, unknown: u32) -> Result<(), Stop>
    requires { AreApart state.old.rows }
    ensures { Leaves tells result state.new (set_aside state.old unknown) }
{
    let mut rows = mem::replace(&mut state.rows, Seq::new(alloc)).into_vec();
    match take_equation(&mut rows, unknown) {
        None => {
            state.rows = Seq::from_vec(rows);
            state.left.push(unknown)?;
            Ok(())
        }
        Some(equation) => put_aside(alloc, state, unknown, equation, rows),
    }
}

/// The system without the unknowns that equations have, in their order.
fn set_all_aside(alloc: Global, unknowns: u32, rows: Seq<Row>) -> Result<Reduced, Stop>
    requires { AreApart rows }
    ensures { Answers tells result (steps set_aside (whole rows) (numbers_from 0 unknowns)) }
{
    let mut state = Reduced {
        rows,
        aside: Seq::new(alloc),
        left: Seq::new(alloc),
    };
    for unknown in 0..unknowns {
        set_aside(alloc, &mut state, unknown)?;
    }
    Ok(state)
}

/// A system, and the bounds of each unknown that was eliminated: the lower ones, or the upper ones where there are no lower ones.
#[derive(Drop)]
pub struct Bounded {
    pub rows: Seq<Row>,
    pub bounds: Seq<(u32, Seq<Row>)>,
}

/// The relations without an unknown, its lower bounds and its upper ones.
#[derive(Drop)]
struct Parted {
    without: Seq<Row>,
    lows: Seq<Row>,
    ups: Seq<Row>,
}

/// One more relation, put where it belongs by the sign with which it has an unknown.
fn part_one(parted: &mut Parted, unknown: u32, row: Row) -> Result<(), AllocError>
    ensures { OnOk result (parted.new ≡ parted_with unknown parted.old row) }
{
    let coefficient = row.coefficient(unknown);
    if coefficient < 0 {
        parted.lows.push(row)
    } else if coefficient > 0 {
        parted.ups.push(row)
    } else {
        parted.without.push(row)
    }
}

/// Relations parted by the sign with which they have an unknown.
fn part(alloc: Global, unknown: u32, rows: Seq<Row>) -> Result<Parted, AllocError>
    ensures { IfOk result (IsParted unknown rows) }
{
    let mut parted = Parted {
        without: Seq::new(alloc),
        lows: Seq::new(alloc),
        ups: Seq::new(alloc),
    };
    for row in rows.into_vec() {
        part_one(&mut parted, unknown, row)?;
    }
    Ok(parted)
}

/// One more relation, made of an upper and a lower bound.
fn cross(alloc: Global, unknown: u32, up: &Row, kept: &mut Vec<Row>, low: &Row) -> Result<(), Stop>
    ensures { Leaves tells result kept.new.items (crossed_once unknown up.now kept.old.items low.now) }
{
    let row = crossing(alloc, unknown, up, low)?;
    admit(kept, row)
}

/// Relations made of an upper bound and each lower one.
fn cross_lows(
    alloc: Global,
    unknown: u32,
    lows: &[Row],
    kept: &mut Vec<Row>,
    up: &Row,
) -> Result<(), Stop>
    ensures { Leaves tells result kept.new.items (crossed_with unknown lows.now kept.old.items up.now) }
{
    for low in lows {
        cross(alloc, unknown, up, kept, low)?;
    }
    Ok(())
}

/// Relations made of each upper bound and each lower one.
fn cross_all(
    alloc: Global,
    unknown: u32,
    lows: &[Row],
    ups: &[Row],
    mut kept: Vec<Row>,
) -> Result<Seq<Row>, Stop>
    ensures { Answers tells result (steps (crossed_with unknown lows.now) kept.items ups.now) }
{
    for up in ups {
        cross_lows(alloc, unknown, lows, &mut kept, up)?;
    }
    Ok(Seq::from_vec(kept))
}

/// The lower bounds, or the upper ones where there are none.
fn or_else(lows: Seq<Row>, ups: Seq<Row>) -> Seq<Row>
    ensures { result ≡ or_else lows ups }
{
    if lows.is_empty() { ups } else { lows }
}

/// The system without the unknown.
fn cross_out(alloc: Global, state: &mut Bounded, unknown: u32) -> Result<(), Stop>
    ensures { Leaves tells result state.new (crossed state.old unknown) }
{
    let rows = mem::replace(&mut state.rows, Seq::new(alloc));
    let Parted { without, lows, ups } = part(alloc, unknown, rows)?;
    let without = without.into_vec();
    state.rows = cross_all(alloc, unknown, lows.as_slice(), ups.as_slice(), without)?;
    state.bounds.push((unknown, or_else(lows, ups)))?;
    Ok(())
}

/// The system without the unknowns, one after the other.
pub fn cross_each(alloc: Global, unknowns: &[u32], rows: Seq<Row>) -> Result<Bounded, Stop>
    ensures { Answers tells result (steps crossed (unbounded rows) unknowns.now) }
{
    let mut state = Bounded {
        rows,
        bounds: Seq::new(alloc),
    };
    for unknown in unknowns {
        cross_out(alloc, &mut state, *unknown)?;
    }
    Ok(state)
}

/// The relations one after the other, as a system.
pub fn admit_all(alloc: Global, rows: Vec<Row>) -> Result<Seq<Row>, Stop>
    ensures { Answers tells result (steps admitted [] rows.items) }
{
    let mut kept = Vec::new(alloc);
    let mut rest = rows;
    rest.reverse();
    while let Some(row) = rest.pop() {
        admit(&mut kept, row)?;
    }
    Ok(Seq::from_vec(kept))
}

/// What an elimination leaves: the equations that were set aside, and the bounds of the other unknowns.
#[derive(Drop)]
pub struct Eliminated {
    pub aside: Seq<(u32, Row)>,
    pub bounds: Seq<(u32, Seq<Row>)>,
}

/// The elimination of the unknowns that are left, by pairs of bounds.
fn eliminate_left(alloc: Global, reduced: Reduced) -> Result<Eliminated, Stop>
    ensures { Answers tells result (eliminated_left reduced) }
{
    let Reduced { rows, aside, left } = reduced;
    let Bounded { rows: _, bounds } = cross_each(alloc, left.as_slice(), rows)?;
    Ok(Eliminated { aside, bounds })
}

/// The elimination of all unknowns: first by equations, then by pairs of bounds.
pub fn eliminate_all(alloc: Global, unknowns: u32, rows: Vec<Row>) -> Result<Eliminated, Stop>
    ensures { Answers tells result (eliminated unknowns rows.items) }
{
    let system = admit_all(alloc, rows)?;
    let reduced = set_all_aside(alloc, unknowns, system)?;
    eliminate_left(alloc, reduced)
}
