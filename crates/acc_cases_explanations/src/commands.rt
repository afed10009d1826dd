//! Command lines over files and disks in memory: how they end, what they print, and what is told of them.
use acc_cases_commands::disks::{base, file};
use acc_cases_commands::{InTurn, acc, help_text, memory};
use acc_crew::Alone;
use acc_diagnose::explain;
use acc_disk::MemDisk;
use acc_io::{MemShelf, MemSink};
use acc_progress::Silent;
use std::alloc::{AllocError, Global};

/// The script of the cases that try orders.
pub const SCRIPT: &str = "fund 1 1 100\nfund 1 2 50\n";

/// The order of those that give none.
const ORDER: &str = "1 2\n";

/// A shelf with a design, a script and an order, of which the reads of these numbers fail.
fn failing_shelf(
    alloc: Global,
    fails: &[u64],
    design: &str,
    script: &str,
    order: &str,
) -> Result<MemShelf, AllocError> {
    let mut shelf = memory::empty_shelf(alloc, fails)?;
    memory::hold(&mut shelf, "design", design.as_bytes())?;
    memory::hold_run(&mut shelf, script, order)?;
    Ok(shelf)
}

/// A shelf with a design and a certificate, an empty script and an empty order.
fn certified_shelf(alloc: Global, design: &str, certificate: &str) -> Result<MemShelf, AllocError> {
    let mut shelf = failing_shelf(alloc, &[], design, "", "")?;
    memory::hold(&mut shelf, "cert", certificate.as_bytes())?;
    Ok(shelf)
}

/// What is told of a command line that ended with this status.
fn told(
    alloc: Global,
    status: u8,
    words: &[String],
    shelf: &mut MemShelf,
    printed: &[u8],
) -> Result<String, AllocError> {
    let usage = help_text(alloc)?;
    let told = explain(alloc, status, words, shelf, printed, &usage);
    String::from_utf8_lossy(alloc, &told)
}

/// The status of a command line, what it printed, and what is told of it.
fn spelled(
    alloc: Global,
    status: u8,
    words: &[String],
    shelf: &mut MemShelf,
    printed: &[u8],
) -> Result<String, AllocError> {
    let told = told(alloc, status, words, shelf, printed)?;
    let printed = String::from_utf8_lossy(alloc, printed)?;
    format!(in alloc; "status {status} {:?}\n{told}", printed.as_str())
}

/// Answers a command line over a shelf, a sink and a disk.
fn answer_over(
    alloc: Global,
    line: &str,
    shelf: &mut MemShelf,
    out: &mut MemSink,
    disk: MemDisk,
) -> Result<String, AllocError> {
    let words = memory::words(alloc, line)?;
    let status = acc(
        alloc,
        &words,
        shelf,
        out,
        disk,
        &Alone,
        &InTurn,
        &mut None,
        &mut Silent,
    )
    .status;
    spelled(alloc, status, &words, shelf, out.bytes())
}

/// Answers a command line over a shelf, a sink of which these writes fail, and no disk.
fn answer(
    alloc: Global,
    line: &str,
    shelf: &mut MemShelf,
    fails: &[u64],
) -> Result<String, AllocError> {
    let mut out = memory::sink(alloc, fails, &[])?;
    let disk = memory::disk(alloc, &[], &[], None)?;
    answer_over(alloc, line, shelf, &mut out, disk)
}

/// Answers a play of a design.
pub fn play(alloc: Global, design: &str, script: &str, order: &str) -> Result<String, AllocError> {
    let mut shelf = failing_shelf(alloc, &[], design, script, order)?;
    answer(alloc, "play design script order", &mut shelf, &[])
}

/// Answers a command line over a design, a script and an order, of which these reads fail, and a sink of which these writes fail.
pub fn run(
    alloc: Global,
    design: &str,
    line: &str,
    reads: &[u64],
    writes: &[u64],
) -> Result<String, AllocError> {
    let mut shelf = failing_shelf(alloc, reads, design, SCRIPT, ORDER)?;
    answer(alloc, line, &mut shelf, writes)
}

/// Checks a design with the text of a certificate.
pub fn check(alloc: Global, design: &str, certificate: &str) -> Result<String, AllocError> {
    let mut shelf = certified_shelf(alloc, design, certificate)?;
    answer(alloc, "check design cert", &mut shelf, &[])
}

/// Answers a command line over a design, its certificate without proofs and a journal, of which all calls fail from that number on. A copy
/// of the journal is the file `journal`.
pub fn journal(
    alloc: Global,
    design: &str,
    rest: &str,
    from: Option<u64>,
) -> Result<String, AllocError> {
    let (bytes, line) = rest.split_once(" ").unwrap_or((rest, ""));
    let mut shelf = certified_shelf(alloc, design, "[]")?;
    let base = base(alloc, &mut shelf, bytes, line)?;
    let bytes = file(alloc, &base, bytes)?;
    memory::hold(&mut shelf, "journal", &bytes)?;
    let mut out = memory::sink(alloc, &[], &[])?;
    let disk = memory::disk(alloc, &bytes, &[], from)?;
    answer_over(alloc, line, &mut shelf, &mut out, disk)
}
