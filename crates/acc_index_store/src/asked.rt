//! The totals that a design's steps read.
ghost use Rattle.std.specs.Prelude.{◌≡◌, ◌||◌, IfOk, OnOk};
ghost use Rattle.std.specs.List.{list_any};
ghost use Rattle.acc_index_store.specs.declared.prefixes.Prefixes.{Prefixes};
ghost use Rattle.acc_index_store.specs.Asked.{asked_by, is_alike, asks, point_asks, type_asks, design_asks, Adds};

use crate::prefixes::Prefixes;
use acc_base::designs::{Design, Point, TxType};
use acc_base::steps::Read;
use std::alloc::{AllocError, Global};

/// The totals that answer a read, if it asks for any.
fn asked_by(read: &Read) -> Option<Prefixes>
    ensures { result ≡ asked_by read.now }
{
    match read {
        Read::Count(_, table, prefix) => Some(Prefixes {
            table: *table,
            parts: prefix.len(),
            col: 0,
        }),
        Read::Sum(_, table, prefix, col) => Some(Prefixes {
            table: *table,
            parts: prefix.len(),
            col: *col,
        }),
        Read::Let(_, _) | Read::Col(_, _, _, _) | Read::Has(_, _, _) => None,
        Read::Least(_, _, _) | Read::Greatest(_, _, _) => None,
        Read::Take(_) | Read::Mul(_, _, _) | Read::Div(_, _, _) => None,
    }
}

/// Whether two are the same.
fn is_alike(a: Prefixes, b: &Prefixes) -> bool
    ensures { result ≡ is_alike a b.now }
{
    a.table == b.table && a.parts == b.parts && a.col == b.col
}

/// Whether some are among others.
fn is_among(prefixes: Prefixes, kept: &[Prefixes]) -> bool
    ensures { result ≡ list_any (is_alike prefixes) kept.now }
{
    kept.iter().any(|other| is_alike(prefixes, other))
}

/// Adds totals to those that a store shall keep, unless they are there. It fails for want of memory, and adds nothing then.
pub fn add(kept: &mut Vec<Prefixes>, prefixes: Prefixes) -> Result<(), AllocError>
    ensures { OnOk result (Adds (λ k. is_alike k prefixes) kept.old.items kept.new.items) }
{
    if !is_among(prefixes, kept) {
        kept.push(prefixes)?;
    }
    Ok(())
}

/// Adds what a read asks for.
fn add_read(kept: &mut Vec<Prefixes>, read: &Read) -> Result<(), AllocError>
    ensures { OnOk result (Adds (λ k. asks k read.now) kept.old.items kept.new.items) }
{
    match asked_by(read) {
        Some(prefixes) => add(kept, prefixes),
        None => Ok(()),
    }
}

/// Adds what some reads ask for.
fn add_reads(kept: &mut Vec<Prefixes>, reads: &[Read]) -> Result<(), AllocError>
    ensures { OnOk result (Adds (λ k. list_any (asks k) reads.now) kept.old.items kept.new.items) }
{
    for read in reads {
        add_read(kept, read)?;
    }
    Ok(())
}

/// Adds what the steps of a point ask for.
fn add_point(kept: &mut Vec<Prefixes>, point: &Point) -> Result<(), AllocError>
    ensures { OnOk result (Adds (λ k. point_asks k point.now) kept.old.items kept.new.items) }
{
    add_reads(kept, point.next.reads.as_slice())?;
    add_reads(kept, point.undo.reads.as_slice())
}

/// Adds what the steps of a type ask for.
fn add_type(kept: &mut Vec<Prefixes>, ty: &TxType) -> Result<(), AllocError>
    ensures { OnOk result (Adds (λ k. type_asks k ty.now) kept.old.items kept.new.items) }
{
    for point in ty.points.as_slice() {
        add_point(kept, point)?;
    }
    Ok(())
}

/// The totals that the steps of a design ask for, and no others.
pub fn totals_asked(alloc: Global, design: &Design) -> Result<Vec<Prefixes>, AllocError>
    ensures { IfOk result (λ kept. (k : Prefixes) → list_any (is_alike k) kept.items ≡ design_asks k design.now) }
{
    let mut kept = Vec::new(alloc);
    for ty in design.types.as_slice() {
        add_type(&mut kept, ty)?;
    }
    Ok(kept)
}
