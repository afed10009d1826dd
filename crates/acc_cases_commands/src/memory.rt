//! Command lines over a shelf and a disk in memory.
use acc_cli::{Alone, Done, InTurn, acc};
use acc_disk::MemDisk;
use acc_io::{MemShelf, MemSink, Sink};
use acc_progress::Silent;
use std::alloc::{AllocError, Global};

/// The words of a text.
pub fn words(alloc: Global, text: &str) -> Result<Vec<String>, AllocError> {
    let mut words = Vec::new(alloc);
    for word in text.split_whitespace() {
        words.push(String::from_str(alloc, word)?)?;
    }
    Ok(words)
}

/// A shelf without a file; the reads of the list fail.
pub fn empty_shelf(alloc: Global, fails: &[u64]) -> Result<MemShelf, AllocError> {
    MemShelf::new(alloc, fails).map_err(|_| AllocError)
}

/// Puts a file there.
pub fn hold(shelf: &mut MemShelf, name: &str, bytes: &[u8]) -> Result<(), AllocError> {
    shelf.hold(name, bytes).map_err(|_| AllocError)
}

/// A shelf with a design.
pub fn shelf(alloc: Global, design: &str) -> Result<MemShelf, AllocError> {
    let mut shelf = empty_shelf(alloc, &[])?;
    hold(&mut shelf, "design", design.as_bytes())?;
    Ok(shelf)
}

/// The command line of a schedule over the files that a shelf has.
pub const SCHED: &str = "rehearse design certificate script order";

/// A shelf with a design and a certificate.
pub fn certified_shelf(
    alloc: Global,
    design: &str,
    certificate: &str,
) -> Result<MemShelf, AllocError> {
    let mut shelf = shelf(alloc, design)?;
    hold(&mut shelf, "certificate", certificate.as_bytes())?;
    Ok(shelf)
}

/// Puts a script and an order there.
pub fn hold_run(shelf: &mut MemShelf, script: &str, order: &str) -> Result<(), AllocError> {
    hold(shelf, "script", script.as_bytes())?;
    hold(shelf, "order", order.as_bytes())
}

/// Answers a command line over an empty disk, and tells the status and how many events there were.
pub fn answer<K: Sink>(
    alloc: Global,
    line: &str,
    shelf: &mut MemShelf,
    out: &mut K,
) -> Result<(u8, usize), AllocError> {
    let disk = disk(alloc, &[], &[], None)?;
    let done = answer_over(alloc, line, shelf, out, disk)?;
    Ok((done.status, done.history.len()))
}

/// A disk that holds these bytes; the calls of the list fail, and all from that number on.
pub fn disk(
    alloc: Global,
    bytes: &[u8],
    fails: &[u64],
    from: Option<u64>,
) -> Result<MemDisk, AllocError> {
    MemDisk::new(alloc, bytes, fails, from).map_err(|_| AllocError)
}

/// The bytes that a text spells, two digits each; a `-` is none.
pub fn bytes_of(alloc: Global, text: &str) -> Vec<u8> {
    let digits = if text == "-" { "" } else { text };
    match hex::decode(alloc, digits) {
        Ok(bytes) => bytes,
        Err(_) => Vec::new(alloc),
    }
}

/// Answers a command line over a disk.
pub fn answer_over<K: Sink>(
    alloc: Global,
    line: &str,
    shelf: &mut MemShelf,
    out: &mut K,
    disk: MemDisk,
) -> Result<Done<MemDisk>, AllocError> {
    let words = words(alloc, line)?;
    Ok(acc(
        alloc,
        &words,
        shelf,
        out,
        disk,
        &Alone,
        &InTurn,
        &mut None,
        &mut Silent,
    ))
}

/// A sink; the writes of the first list fail, and the others take no more than the second says.
pub fn sink(alloc: Global, fails: &[u64], takes: &[u64]) -> Result<MemSink, AllocError> {
    MemSink::new(alloc, fails, takes).map_err(|_| AllocError)
}
