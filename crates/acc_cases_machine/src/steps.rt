//! What a step does, and how it looks, over no row or one. Both are asked by a side, a point, the value of the row with the
//! key [1, 1] of the first table, and the locals.
ghost use Rattle.std.specs.Prelude.{◌^◌, ◌↔◌, IsTrue, IfOk, IfSome};
ghost use Rattle.acc_base.specs.Numbers.{IsSmall};
ghost use Rattle.acc_base.specs.Tables.{IsInOrder};
ghost use Rattle.acc_base.specs.Runnable.{IsRunnable, IsSmallFrame};
ghost use Rattle.acc_store.specs.Bounds.{AreWithin};

use crate::designs::is_formed;
use acc_base::designs::{Design, Side};
use acc_base::machines::Frame;
use acc_base::sequences::Seq;
use acc_base::tables::{Key, Row};
use acc_cases_words::rows::push_row;
use acc_cases_words::words::{list, parted, small};
use acc_step::{StepEffect, StepError, effect, look};
use acc_store::{MapStore, Store, StoreError, Write as RowWrite};
use std::alloc::{AllocError, Global};
use std::fmt::Write;

/// The farthest number from 0 that is in range.
const EDGE: i64 = 35_184_372_088_832;

/// The store of one row.
fn one_row(alloc: Global, value: i64) -> Result<MapStore, StoreError>
    ensures order { IfOk result IsInOrder }
    ensures within { IfOk result (AreWithin (2 ^ 120)) }
{
    let mut store = MapStore::new(alloc);
    let row = Row {
        table: 0,
        key: Key {
            parts: Seq::from_vec(Vec::from_slice(alloc, &[1, 1])?),
        },
        cols: Seq::from_vec(Vec::from_slice(alloc, &[i128::from(value)])?),
    };
    store.apply(&[RowWrite::Row(row)])?;
    Ok(store)
}

/// A store without rows.
fn no_rows(alloc: Global) -> MapStore
    ensures order { IsInOrder result }
    ensures within { AreWithin (2 ^ 120) result }
{
    MapStore::new(alloc)
}

/// The store of a word: the value of its one row, or '-'.
fn store(alloc: Global, word: &str) -> Result<MapStore, StoreError>
    ensures order { IfOk result IsInOrder }
    ensures within { IfOk result (AreWithin (2 ^ 120)) }
{
    match word.parse() {
        Ok(value) => one_row(alloc, value),
        Err(_) => Ok(no_rows(alloc)),
    }
}

/// Whether a number is in range.
fn is_small(number: i64) -> bool
    ensures { IsTrue result ↔ IsSmall number }
{
    -EDGE <= number && number <= EDGE
}

/// The frame of a transaction at that point, if its locals are few and in range.
fn frame(alloc: Global, point: u32, side: Side, locals: Vec<i64>) -> Option<Frame>
    ensures { IfSome result IsSmallFrame }
{
    if locals.len() > 48 || !locals.iter().all(|number| is_small(*number)) {
        return None;
    }
    Some(Frame {
        t: 1,
        ty: 0,
        point,
        side,
        locals: Seq::from_vec(locals),
        tape: Seq::new(alloc),
        pos: 0,
        steps: 0,
        ask: None,
    })
}

fn push_write(out: &mut String, write: &RowWrite) -> Result<(), AllocError> {
    match write {
        RowWrite::Row(row) => {
            out.push_str(", put ")?;
            push_row(out, row)
        }
        RowWrite::Gone(table, key) => write!(out, ", drop {table} {:?}", key.parts.as_slice()),
    }
}

fn push_effect(out: &mut String, effect: &StepEffect) -> Result<(), AllocError> {
    write!(
        out,
        "path {}, {:?}, locals {:?}, tape {}",
        effect.path,
        effect.target,
        effect.locals.as_slice(),
        effect.pos
    )?;
    for write in effect.writes.as_slice() {
        push_write(out, write)?;
    }
    Ok(())
}

fn push_ended(out: &mut String, ended: Result<StepEffect, StepError>) -> Result<(), AllocError> {
    match ended {
        Ok(effect) => push_effect(out, &effect),
        Err(StepError::Range) => out.push_str("range"),
        Err(StepError::Memory) => Err(AllocError),
    }
}

fn side(word: &str) -> Side {
    if word == "undo" {
        Side::Undo
    } else {
        Side::Next
    }
}

/// Pushes how a step looks over a store, and the locals after its reads with two places more, which held 7.
fn push_look(
    out: &mut String,
    design: &Design,
    frame: &Frame,
    store: &MapStore,
) -> Result<(), AllocError>
    requires runnable { IsRunnable design.now }
    requires fits { IsSmallFrame frame.now }
    requires order { IsInOrder store.now }
    requires within { AreWithin (2 ^ 120) store.now }
{
    let mut after = [7; 48];
    let outlook = look(design, frame, frame.side, store, &mut after);
    let shown = after.get(..frame.locals.len().saturating_add(2));
    write!(out, "{outlook:?}, {shown:?}")
}

/// Pushes what a step does over a store of that word, or how it looks.
fn push_over(
    alloc: Global,
    out: &mut String,
    design: &Design,
    frame: &Frame,
    verb: &str,
    value: &str,
) -> Result<(), AllocError>
    requires runnable { IsRunnable design.now }
    requires fits { IsSmallFrame frame.now }
{
    let Ok(store) = store(alloc, value) else {
        return Err(AllocError);
    };
    match verb {
        "effect" => push_ended(out, effect(alloc, design, frame, frame.side, &store)),
        _ => push_look(out, design, frame, &store),
    }
}

/// The frame of a side, of a point and of locals in words, if it is one.
fn frame_of(alloc: Global, on: &str, point: &str, locals: &str) -> Result<Option<Frame>, AllocError>
    ensures { IfOk result (λ found. IfSome found IsSmallFrame) }
{
    let locals = list(alloc, locals)?;
    Ok(frame(alloc, small(point), side(on), locals))
}

/// Pushes what the step of those words does, or, by another verb than `effect`, how it looks.
pub fn push_answer(
    alloc: Global,
    out: &mut String,
    design: &Design,
    verb: &str,
    words: &str,
) -> Result<(), AllocError> {
    if !is_formed(design) {
        return out.push_str("no design");
    }
    let (on, rest) = parted(words, " ");
    let (point, rest) = parted(rest, " ");
    let (value, locals) = parted(rest, " ");
    match frame_of(alloc, on, point, locals)? {
        Some(frame) => push_over(alloc, out, design, &frame, verb, value),
        None => out.push_str("no frame"),
    }
}
