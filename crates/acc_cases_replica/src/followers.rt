//! Replicas that are fed.
use crate::ends::{push_end, push_end_with_rows};
use acc_lift::Accepted;
use acc_replica::{Advanced, Replica, ReplicaError};
use acc_store::{MapStore, Store};
use std::alloc::{AllocError, Global};
use std::fmt::Write;

/// A replica to which nothing was fed.
fn fresh(alloc: Global, design: &Accepted) -> Result<Replica<'_, MapStore>, AllocError> {
    Replica::new(alloc, design, MapStore::new(alloc)).map_err(|_| AllocError)
}

/// Feeds a piece.
fn feed<S: Store>(replica: &mut Replica<S>, piece: &[u8]) -> Result<(), AllocError> {
    replica.feed(piece).map_err(|_| AllocError)
}

/// Feeds a piece, and advances to the end of what came: the refusal, if there is one.
fn follow<S: Store>(
    replica: &mut Replica<S>,
    piece: &[u8],
) -> Result<Option<ReplicaError>, AllocError> {
    feed(replica, piece)?;
    match replica.advance_all() {
        Ok(()) => Ok(None),
        Err(error) => Ok(Some(error)),
    }
}

/// Pushes each item that is done, behind a blank, up to the end of what came: the refusal, if there is one.
fn push_items<S: Store>(
    out: &mut String,
    replica: &mut Replica<S>,
) -> Result<Option<ReplicaError>, AllocError> {
    loop {
        match replica.advance() {
            Ok(Advanced::Event) => out.push_str(" event")?,
            Ok(Advanced::Seal) => out.push_str(" state")?,
            Ok(Advanced::NotYet) => return Ok(None),
            Err(error) => return Ok(Some(error)),
        }
    }
}

/// Feeds a piece that ends behind so many bytes, and pushes that place with the items that are done, if there are any: the refusal, if
/// there is one.
fn push_piece<S: Store>(
    alloc: Global,
    out: &mut String,
    replica: &mut Replica<S>,
    piece: &[u8],
    place: usize,
) -> Result<Option<ReplicaError>, AllocError> {
    feed(replica, piece)?;
    let mut items = String::new(alloc);
    let refusal = push_items(&mut items, replica)?;
    if !items.is_empty() {
        write!(out, "{place}{items} | ")?;
    }
    Ok(refusal)
}

/// Pushes what is done of a journal that comes in pieces of so many bytes.
pub fn push_pieces(
    alloc: Global,
    out: &mut String,
    design: &Accepted,
    size: usize,
    journal: &[u8],
) -> Result<(), AllocError> {
    let mut replica = fresh(alloc, design)?;
    let mut refusal = None;
    let mut place: usize = 0;
    for piece in journal.chunks(size.max(1)) {
        place = place.saturating_add(piece.len());
        refusal = push_piece(alloc, out, &mut replica, piece, place)?;
    }
    push_end_with_rows(alloc, out, &replica, refusal)
}

/// How a replica ends to which two pieces are fed.
fn end_of_two(
    alloc: Global,
    design: &Accepted,
    first: &[u8],
    second: &[u8],
) -> Result<String, AllocError> {
    let mut replica = fresh(alloc, design)?;
    let _ = follow(&mut replica, first)?;
    let refusal = follow(&mut replica, second)?;
    let mut out = String::new(alloc);
    push_end_with_rows(alloc, &mut out, &replica, refusal)?;
    Ok(out)
}

/// The ends behind each cut of a journal into two pieces, each once.
fn ends(alloc: Global, design: &Accepted, journal: &[u8]) -> Result<Vec<String>, AllocError> {
    let mut ends = Vec::new(alloc);
    for place in 0..=journal.len() {
        let (first, second) = journal.split_at(place);
        let end = end_of_two(alloc, design, first, second)?;
        if !ends.contains(&end) {
            ends.push(end)?;
        }
    }
    Ok(ends)
}

/// Pushes how many cuts into two pieces a journal has, and the ends behind them, each once.
pub fn push_cuts(
    alloc: Global,
    out: &mut String,
    design: &Accepted,
    journal: &[u8],
) -> Result<(), AllocError> {
    write!(out, "{} cuts", journal.len().saturating_add(1))?;
    for end in &ends(alloc, design, journal)? {
        write!(out, " | {end}")?;
    }
    Ok(())
}

/// How a replica ends to which a front of a journal is fed.
fn end_of_front(alloc: Global, design: &Accepted, front: &[u8]) -> Result<String, AllocError> {
    let mut replica = fresh(alloc, design)?;
    let refusal = follow(&mut replica, front)?;
    let mut out = String::new(alloc);
    push_end(&mut out, &replica, refusal)?;
    Ok(out)
}

/// Pushes the end of each front of a journal that ends otherwise than the one before, behind its length.
pub fn push_fronts(
    alloc: Global,
    out: &mut String,
    design: &Accepted,
    journal: &[u8],
) -> Result<(), AllocError> {
    let mut last = String::new(alloc);
    let mut mark = "";
    for place in 0..=journal.len() {
        let end = end_of_front(alloc, design, &journal[..place])?;
        if end != last {
            write!(out, "{mark}{place} {end}")?;
            last = end;
            mark = " | ";
        }
    }
    Ok(())
}
