//! A step of which no path is open: no design that keeps the form rules has one.
ghost use Rattle.std.specs.Prelude.{◌≡◌, ◌^◌, [], ◌∷◌, IfOk};
ghost use Rattle.acc_base.specs.Tables.{IsInOrder};
ghost use Rattle.acc_base.specs.Runnable.{CanStep, IsRunnable, IsSmallFrame};
ghost use Rattle.acc_base.specs.declared.designs.Side.TheVariants.{Next as Forward, Undo as Back};
ghost use Rattle.acc_store.specs.Bounds.{AreWithin};

use acc_base::designs::{Design, Point, Side, TxType};
use acc_base::forms::Lin;
use acc_base::machines::Frame;
use acc_base::sequences::Seq;
use acc_base::steps::Step;
use acc_step::{Outlook, StepError, effect, look};
use acc_store::MapStore;
use std::alloc::{AllocError, Global};
use std::fmt::Write;

/// A list of one item.
fn one<T: Drop>(alloc: Global, item: T) -> Result<Seq<T>, AllocError>
    ensures { IfOk result (λ s. s ≡ item ∷ []) }
{
    let mut items = Seq::new(alloc);
    items.push(item)?;
    Ok(items)
}

/// A step without a path.
fn no_path(alloc: Global) -> Step
    ensures next { CanStep Forward result }
    ensures undo { CanStep Back result }
{
    Step {
        reads: Seq::new(alloc),
        paths: Seq::new(alloc),
    }
}

/// A point of two such steps.
fn point(alloc: Global) -> Point
    ensures next { CanStep Forward result.next }
    ensures undo { CanStep Back result.undo }
{
    Point {
        name: Seq::new(alloc),
        clauses: Seq::new(alloc),
        next: no_path(alloc),
        undo: no_path(alloc),
        variant: Lin {
            coeffs: Seq::new(alloc),
            constant: 0,
        },
    }
}

/// A design of one type with that point alone.
fn design(alloc: Global) -> Result<Design, AllocError>
    ensures { IfOk result IsRunnable }
{
    let ty = TxType {
        name: Seq::new(alloc),
        params: 0,
        locals: Seq::new(alloc),
        points: one(alloc, point(alloc))?,
        posts: Seq::new(alloc),
        repairs: Seq::new(alloc),
        returns: Seq::new(alloc),
        limit: 1,
    };
    Ok(Design {
        tables: Seq::new(alloc),
        always: Seq::new(alloc),
        types: one(alloc, ty)?,
        entries: Seq::new(alloc),
        hints: Seq::new(alloc),
    })
}

/// A frame without locals.
fn frame(alloc: Global) -> Frame
    ensures { IsSmallFrame result }
{
    Frame {
        t: 1,
        ty: 0,
        point: 0,
        side: Side::Next,
        locals: Seq::new(alloc),
        tape: Seq::new(alloc),
        pos: 0,
        steps: 0,
        ask: None,
    }
}

/// A store without rows.
fn no_rows(alloc: Global) -> MapStore
    ensures order { IsInOrder result }
    ensures within { AreWithin (2 ^ 120) result }
{
    MapStore::new(alloc)
}

/// Whether a step's effect is out of range.
fn is_out(alloc: Global, design: &Design, side: Side) -> bool
    requires { IsRunnable design.now }
{
    effect(alloc, design, &frame(alloc), side, &no_rows(alloc)).err() == Some(StepError::Range)
}

/// Whether a step looks out of range.
fn looks_out(alloc: Global, design: &Design, side: Side) -> bool
    requires { IsRunnable design.now }
{
    let mut after = [0; 48];
    look(design, &frame(alloc), side, &no_rows(alloc), &mut after) == Outlook::Range
}

/// Adds how the step of a side does and looks.
fn add_side(
    alloc: Global,
    out: &mut String,
    name: &str,
    design: &Design,
    side: Side,
) -> Result<(), AllocError>
    requires { IsRunnable design.now }
{
    let is_out = is_out(alloc, design, side);
    let looks_out = looks_out(alloc, design, side);
    writeln!(out, "{name}: out of range {is_out}, looks so {looks_out}")
}

fn add_sides(alloc: Global, out: &mut String, design: &Design) -> Result<(), AllocError>
    requires { IsRunnable design.now }
{
    add_side(alloc, out, "next", design, Side::Next)?;
    add_side(alloc, out, "undo", design, Side::Undo)
}

/// `no path`: how a step without a path does and looks, on both sides.
pub fn told(alloc: Global) -> Result<String, AllocError> {
    let design = design(alloc)?;
    let mut out = String::new(alloc);
    add_sides(alloc, &mut out, &design)?;
    Ok(out)
}
