//! What is kept of relations that are asked about again and again, each time with one more behind them.
ghost use Rattle.std.specs.Prelude.{◌≡◌, ◌≢◌, ◌≤◌, ◌⊎◌, ◌∷◌, ◌++◌, [], ℕ, List, Bool, true, false, None, Err, IfOk, IfSome, OnOk};
ghost use Rattle.std.specs.List.{list_any};
ghost use Rattle.acc_rows.specs.declared.rows.Row.{Row};
ghost use Rattle.acc_rows.specs.declared.stops.Stop.TheVariants.{Memory as OutOfMemory};
ghost use Rattle.acc_base.specs.Computing.{Answers, chain};
ghost use Rattle.acc_rows.specs.Answers.{tells};
ghost use Rattle.acc_elim_points.specs.Searches.{found_by};
ghost use Rattle.acc_elim_stages.specs.Followed.{through};
ghost use Rattle.acc_elim_known.specs.Ends.{found_behind, is_equation, KeepsPoint, IsWhole, IsStopped, IsKnown, HasPoint};
ghost use Rattle.acc_elim_known.specs.Ends.{IsKnownWithin, StaysKnown, AnswersKnown, IsExtended, IsCarried, IsCarriedOn};

use crate::ending::{found_behind, left_with};
use acc_base::sequences::{Seq, copied};
use acc_elim_points::searching::found_by;
use acc_elim_stages::carrying::carry;
use acc_elim_stages::copies::{copied_row, copied_rows, copied_stop};
use acc_elim_stages::following::{add_left, follow};
use acc_elim_stages::stages::{Path, Stage, begin, set_aside};
use acc_rows::rows::Row;
use acc_rows::stops::Stop;
use std::alloc::{AllocError, Global};

/// How many unknowns the relations have, their stage of equations, and the point that they end with, once it was asked for.
#[derive(Drop)]
pub struct Whole {
    pub unknowns: u32,
    pub stage: Stage,
    pub point: Option<Seq<(i128, i128)>>,
}

/// The path to the unknown at which a stage of equations stops, and what stops it there.
#[derive(Drop)]
pub struct Stopped {
    pub path: Path,
    pub stop: Stop,
}

/// What is kept of relations.
#[derive(Drop)]
pub enum Known {
    /// Their stage of equations.
    Whole(Whole),
    /// A stage that stops at one of the unknowns. One more inequality behind them stops earlier, or is stopped with them.
    Stopped(Stopped),
    /// What stops them before the first unknown, whatever comes behind them.
    Unbegun(Stop),
}

/// What stops an elimination whenever it is done. Want of memory doesn't.
fn lasting(stop: Stop) -> Result<Stop, AllocError>
    ensures { IfOk result (λ s. (s ≡ stop) × (stop ≢ OutOfMemory)) }
{
    match stop {
        Stop::Memory => Err(AllocError),
        Stop::Refuted(row) => Ok(Stop::Refuted(row)),
        Stop::Wide => Ok(Stop::Wide),
        Stop::Many => Ok(Stop::Many),
    }
}

/// What is kept of relations between this many unknowns.
pub fn known_of(alloc: Global, unknowns: u32, rows: Vec<Row>) -> Result<Known, AllocError>
    ensures { IfOk result (IsKnown rows.items unknowns) }
{
    let mut stage = match begin(alloc, rows) {
        Ok(stage) => stage,
        Err(stop) => return Ok(Known::Unbegun(lasting(stop)?)),
    };
    for unknown in 0..unknowns {
        if let Err(stop) = set_aside(alloc, &mut stage, unknown) {
            let stop = lasting(stop)?;
            let path = stage.path;
            return Ok(Known::Stopped(Stopped { path, stop }));
        }
    }
    Ok(Known::Whole(Whole {
        unknowns,
        stage,
        point: None,
    }))
}

/// The point of the relations of a stage. It is asked for only once.
fn found_whole(alloc: Global, whole: &mut Whole) -> Result<Seq<(i128, i128)>, Stop>
    requires { KeepsPoint whole.old }
    ensures kept { KeepsPoint whole.new }
    ensures unknowns { whole.new.unknowns ≡ whole.old.unknowns }
    ensures stage { whole.new.stage ≡ whole.old.stage }
    ensures value { Answers tells result (found_behind whole.old.stage whole.old.unknowns None whole.old.unknowns) }
{
    if let Some(point) = &whole.point {
        return Ok(copied(point)?);
    }
    let point = found_behind(alloc, &whole.stage, whole.unknowns, None, whole.unknowns)?;
    whole.point = Some(copied(&point)?);
    Ok(point)
}

/// The point of the relations alone, or what stops its search.
pub fn found(alloc: Global, known: &mut Known) -> Result<Seq<(i128, i128)>, Stop>
    requires { HasPoint known.old }
    ensures kept { StaysKnown known.old known.new }
    ensures value { AnswersKnown known.old result }
{
    match known {
        Known::Whole(whole) => found_whole(alloc, whole),
        Known::Stopped(stopped) => Err(copied_stop(&stopped.stop)?),
        Known::Unbegun(stop) => Err(copied_stop(stop)?),
    }
}

/// The point where this is left of one more relation. Where nothing is, it is that of the relations alone.
fn found_left(
    alloc: Global,
    whole: &mut Whole,
    rest: Option<Row>,
    unknowns: u32,
) -> Result<Seq<(i128, i128)>, Stop>
    requires { KeepsPoint whole.old }
    ensures kept { KeepsPoint whole.new }
    ensures unknowns { whole.new.unknowns ≡ whole.old.unknowns }
    ensures stage { whole.new.stage ≡ whole.old.stage }
    ensures value { Answers tells result (found_behind whole.old.stage whole.old.unknowns rest unknowns) }
{
    if rest.is_none() && whole.unknowns == unknowns {
        return found_whole(alloc, whole);
    }
    found_behind(alloc, &whole.stage, whole.unknowns, rest, unknowns)
}

/// Whether one of these is an equation.
fn has_equation(rows: &[Row]) -> bool
    ensures { result ≡ list_any is_equation rows.now }
{
    for one in rows {
        if one.equal {
            return true;
        }
    }
    false
}

/// Whether no unknown of these is taken away by an equation behind the stage: there is no new one, or no equation is left. (None ever is,
/// as each has an unknown; that isn't proved, and isn't needed.)
fn is_settled(whole: &Whole, unknowns: u32) -> bool
    ensures { result ≡ true → (whole.now.unknowns ≡ unknowns) ⊎ (list_any is_equation whole.now.stage.rows ≡ false) }
{
    whole.unknowns == unknowns || !has_equation(whole.stage.rows.as_slice())
}

/// The point of the relations with one more behind them, by a whole elimination.
fn found_anew(
    alloc: Global,
    rows: &[Row],
    unknowns: u32,
    row: Row,
) -> Result<Seq<(i128, i128)>, Stop>
    ensures { Answers tells result (found_by unknowns (rows.now ++ row ∷ [])) }
{
    let mut all = copied_rows(alloc, rows)?;
    all.push(row)?;
    found_by(alloc, unknowns, all)
}

/// The point of the relations with one more inequality behind them, which is led through their stage.
fn found_whole_with(
    alloc: Global,
    whole: &mut Whole,
    rows: &[Row],
    unknowns: u32,
    row: Row,
) -> Result<Seq<(i128, i128)>, Stop>
    requires known { IsWhole rows.now whole.old.unknowns whole.old }
    requires within { whole.old.unknowns ≤ unknowns }
    requires equal { row.equal ≡ false }
    ensures known { IsWhole rows.now whole.old.unknowns whole.new }
    ensures value { Answers tells result (found_by unknowns (rows.now ++ row ∷ [])) }
{
    if !is_settled(whole, unknowns) {
        return found_anew(alloc, rows, unknowns, row);
    }
    let rest = follow(alloc, &whole.stage.path, row)?;
    found_left(alloc, whole, rest, unknowns)
}

/// What stops relations of which the stage stops, with one more inequality behind them: what stops that one, or what stops the stage.
fn stop_with(alloc: Global, stopped: &Stopped, row: Row) -> Result<Seq<(i128, i128)>, Stop>
    ensures { Answers tells result (chain (through stopped.now.path row) (λ _. Err stopped.now.stop)) }
{
    follow(alloc, &stopped.path, row)?;
    Err(copied_stop(&stopped.stop)?)
}

/// The point of the relations with one more behind them, which may bring more unknowns. An inequality is led through the stage that is
/// kept; an equation takes a whole elimination.
pub fn found_with(
    alloc: Global,
    known: &mut Known,
    rows: &[Row],
    unknowns: u32,
    row: Row,
) -> Result<Seq<(i128, i128)>, Stop>
    requires { IsKnownWithin rows.now unknowns known.old }
    ensures known { (n : ℕ) → IsKnown rows.now n known.old → IsKnown rows.now n known.new }
    ensures value { Answers tells result (found_by unknowns (rows.now ++ row ∷ [])) }
{
    if row.equal {
        return found_anew(alloc, rows, unknowns, row);
    }
    match known {
        Known::Whole(whole) => found_whole_with(alloc, whole, rows, unknowns, row),
        Known::Stopped(stopped) => stop_with(alloc, stopped, row),
        Known::Unbegun(stop) => Err(copied_stop(stop)?),
    }
}

/// The relations get more unknowns, none of which an equation may have.
fn extend_whole(alloc: Global, whole: &mut Whole, unknowns: u32) -> Result<(), AllocError>
    requires { (whole.old.unknowns ≡ unknowns) ⊎ (list_any is_equation whole.old.stage.rows ≡ false) }
    ensures { OnOk result (IsExtended (Known.Whole whole.old) unknowns (Known.Whole whole.new)) }
{
    if whole.unknowns == unknowns {
        return Ok(());
    }
    let left = left_with(&whole.stage.left, whole.unknowns, unknowns)?;
    whole.stage.left = Seq::from_vec(left);
    whole.unknowns = unknowns;
    whole.point = None;
    Ok(())
}

/// What is kept is made that of relations with more unknowns. Tells whether it is.
fn is_extended(alloc: Global, known: &mut Known, unknowns: u32) -> bool
    ensures { result ≡ true → IsExtended known.old unknowns known.new }
{
    match known {
        Known::Whole(whole) => {
            is_settled(whole, unknowns) && extend_whole(alloc, whole, unknowns).is_ok()
        }
        Known::Stopped(_) | Known::Unbegun(_) => true,
    }
}

/// The relations of a stage get one more inequality behind them.
fn carry_whole(alloc: Global, whole: &mut Whole, row: Row) -> Result<(), Stop>
    requires { row.equal ≡ false }
    ensures { OnOk result (IsCarried (Known.Whole whole.old) row (Known.Whole whole.new)) }
{
    let left = carry(alloc, &mut whole.stage.path, row)?;
    add_left(&mut whole.stage.rows, left)?;
    whole.point = None;
    Ok(())
}

/// The relations of a stage that stops get one more inequality behind them.
fn carry_stopped(alloc: Global, stopped: &mut Stopped, row: Row) -> Result<(), Stop>
    requires { row.equal ≡ false }
    ensures { OnOk result (IsCarried (Known.Stopped stopped.old) row (Known.Stopped stopped.new)) }
{
    carry(alloc, &mut stopped.path, row)?;
    Ok(())
}

/// What is kept is made that of the relations with one more inequality behind them, unless something stops that one.
fn carry_inequality(alloc: Global, known: &mut Known, row: Row) -> Result<(), Stop>
    requires { row.equal ≡ false }
    ensures { OnOk result (IsCarried known.old row known.new) }
{
    match known {
        Known::Whole(whole) => carry_whole(alloc, whole, row),
        Known::Stopped(stopped) => carry_stopped(alloc, stopped, row),
        Known::Unbegun(_) => Ok(()),
    }
}

/// The same with a copy of the inequality.
fn carry_copy(alloc: Global, known: &mut Known, last: &Row) -> Result<(), Stop>
    requires { last.now.equal ≡ false }
    ensures { OnOk result (IsCarried known.old last.now known.new) }
{
    let row = copied_row(last)?;
    carry_inequality(alloc, known, row)
}

/// What is kept is made that of the relations with one more behind them. Tells whether it is: not if that one is an equation, or is
/// stopped.
fn is_carried(alloc: Global, known: &mut Known, last: &Row) -> bool
    ensures { result ≡ true → IsCarried known.old last.now known.new }
{
    !last.equal && carry_copy(alloc, known, last).is_ok()
}

/// What is kept is made that of the relations with more of them behind, and with more unknowns. Tells whether it is.
fn is_carried_on(alloc: Global, known: &mut Known, unknowns: u32, rows: &[Row]) -> bool
    ensures { result ≡ true → IsCarriedOn known.old unknowns rows.now known.new }
{
    if !is_extended(alloc, known, unknowns) {
        return false;
    }
    for row in rows {
        if !is_carried(alloc, known, row) {
            return false;
        }
    }
    true
}

/// What is kept of the relations with more of them behind, and with more unknowns; `None` where nothing can be kept.
pub fn carried_on(alloc: Global, mut known: Known, unknowns: u32, rows: &[Row]) -> Option<Known>
    ensures { IfSome result (IsCarriedOn known unknowns rows.now) }
{
    if is_carried_on(alloc, &mut known, unknowns, rows) {
        Some(known)
    } else {
        None
    }
}
