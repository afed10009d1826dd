//! Answers of command lines, printed in several ways.
use acc_cases_commands::{memory, texts};
use acc_io::{MemShelf, MemSink, StdSink};
use std::io;

/// Answers a command line over a shelf in memory, printed at once, and tells the status and how many events there were.
pub fn answer_at_once<R: Print + AllocGlobal>(
    rt: &R,
    line: &str,
    shelf: &mut MemShelf,
) -> io::Result<()> {
    let mut out = StdSink::new(rt);
    let (status, events) = memory::answer(rt.alloc(), line, shelf, &mut out)?;
    println!(rt; "status {status}, {events} events")
}

/// Prints the last two lines of a text.
fn tell_last<R: Print>(rt: &R, text: &str) -> io::Result<()> {
    let count = text.lines().count();
    for line in text.lines().skip(count.saturating_sub(2)) {
        println!(rt; "{line}")?;
    }
    Ok(())
}

/// Answers a command line over a shelf in memory, and tells the last two lines, the status and how many events there were.
pub fn answer_last<R: Print + AllocGlobal>(
    rt: &R,
    line: &str,
    shelf: &mut MemShelf,
) -> io::Result<()> {
    let mut out = memory::sink(rt.alloc(), &[], &[])?;
    let (status, events) = memory::answer(rt.alloc(), line, shelf, &mut out)?;
    tell_last(
        rt,
        String::from_utf8_lossy(rt.alloc(), out.bytes())?.as_str(),
    )?;
    println!(rt; "status {status}, {events} events")
}

/// Answers a command line over a shelf in memory, and tells what was written, as a text with quotes, the status and how
/// many events there were.
pub fn answer_into<R: Print + AllocGlobal>(
    rt: &R,
    line: &str,
    shelf: &mut MemShelf,
    out: &mut MemSink,
) -> io::Result<()> {
    let (status, events) = memory::answer(rt.alloc(), line, shelf, out)?;
    let text = String::from_utf8_lossy(rt.alloc(), out.bytes())?;
    println!(rt; "{:?}\nstatus {status}, {events} events", text.as_str())
}

/// Prints what is shown of a changed design: a refusal, or the lines that aren't shown of the unchanged one; then the status.
pub fn tell_lines<R: Print>(rt: &R, shown: &str, before: &str) -> io::Result<()> {
    for line in shown.lines() {
        let always = line.starts_with("refused") || line.starts_with("status");
        if always || !texts::has_line(before, line) {
            println!(rt; "{line}")?;
        }
    }
    Ok(())
}
