//! The commands and rows of a document, with what each shows.
//!
//! In a document a line `    $ ./acc WORDS` is a command, and the indented lines behind it are its answer. A row of a table whose first
//! three cells are code, the third of them a refusal, is a design that is refused: the wallet's, with the first cell's piece exchanged
//! for the second's. Below a heading on scripts it is a script and an order for the wallet's design. Each is answered, and a line
//! says whether the answer is the one that is shown; where it isn't, the answer stands below.
//!
//! The journals that a document's commands name are files in memory, from the one command to the next. A line `    $ head -c N A > B` puts
//! the first N bytes of the journal A into B, as a crash may leave them.
use crate::answers::answer;
use crate::blocks::{block, lines_of};
use crate::journals::Journals;
use crate::refusals::{of_change, of_script};
use crate::rows::{DocumentRow, row_of};
use std::alloc::{AllocError, Global};
use std::rt::Files;
use std::{fs, io};

/// The file of the design of which a row shows a change.
const DESIGN: &str = "examples/wallet.design";

/// A document's name, and the design of which its rows show changes.
#[derive(Clone, Copy)]
struct Document<'a> {
    name: &'a str,
    design: &'a str,
}

/// Tells of a command or a row of a document whether its answer is the one that is shown.
fn tell_answer<R: Print>(
    rt: &R,
    name: &str,
    asked: &str,
    answered: &str,
    shown: &str,
) -> io::Result<()> {
    if answered.trim_end() == shown.trim_end() {
        println!(rt; "{name}: {asked}: as shown")
    } else {
        println!(rt; "{name}: {asked}: OTHERWISE\n{answered}")
    }
}

/// Tells of a command and the lines behind it.
fn tell_command<R: Files + Print + AllocGlobal>(
    rt: &R,
    name: &str,
    journals: &mut Journals,
    words: &str,
    behind: &[&str],
) -> io::Result<()> {
    let shown = block(rt.alloc(), behind)?;
    let answered = answer(rt, journals, words)?;
    tell_answer(rt, name, words, answered.as_str(), shown.as_str())
}

/// What is answered to what a row shows.
fn answer_row(
    alloc: Global,
    design: &str,
    row: &DocumentRow,
    is_script: bool,
) -> Result<String, AllocError> {
    if is_script {
        of_script(alloc, design, row)
    } else {
        of_change(alloc, design, row)
    }
}

/// Tells of a row.
fn tell_row<R: Print + AllocGlobal>(
    rt: &R,
    document: Document<'_>,
    row: &DocumentRow,
    is_script: bool,
) -> io::Result<()> {
    let asked = format!(in rt.alloc(); "{} -> {}", row.first, row.second)?;
    let answered = answer_row(rt.alloc(), document.design, row, is_script)?;
    tell_answer(
        rt,
        document.name,
        asked.as_str(),
        answered.as_str(),
        row.refusal.as_str(),
    )
}

/// Tells of a line that shows a row, if it does.
fn tell_text<R: Print + AllocGlobal>(
    rt: &R,
    document: Document<'_>,
    line: &str,
    is_script: bool,
) -> io::Result<()> {
    match row_of(rt.alloc(), line)? {
        Some(row) => tell_row(rt, document, &row, is_script),
        None => Ok(()),
    }
}

/// Puts the front of a journal into another, as words say, in the place of a crash.
fn crash(alloc: Global, journals: &mut Journals, words: &str) -> Result<(), AllocError> {
    let words: Vec<&str> = words.split(' ').collect(alloc)?;
    journals.take_front(alloc, words.as_slice())
}

/// Tells of a line, which the others stand behind.
fn tell_line<R: Files + Print + AllocGlobal>(
    rt: &R,
    document: Document<'_>,
    journals: &mut Journals,
    line: &str,
    behind: &[&str],
    is_script: bool,
) -> io::Result<()> {
    if let Some(words) = line.strip_prefix("    $ head ") {
        return Ok(crash(rt.alloc(), journals, words)?);
    }
    match line.strip_prefix("    $ ./acc ") {
        Some(words) => tell_command(rt, document.name, journals, words, behind),
        None => tell_text(rt, document, line, is_script),
    }
}

/// Tells of lines.
fn tell_lines<R: Files + Print + AllocGlobal>(
    rt: &R,
    document: Document<'_>,
    journals: &mut Journals,
    lines: &[&str],
) -> io::Result<()> {
    let mut is_script = false;
    for (i, line) in lines.iter().enumerate() {
        if line.starts_with("#") {
            is_script = line.split_once("cripts").is_some();
        }
        tell_line(rt, document, journals, line, &lines[i + 1..], is_script)?;
    }
    Ok(())
}

/// Tells of each command and each row of a document's text.
fn tell_each<R: Files + Print + AllocGlobal>(
    rt: &R,
    document: Document<'_>,
    text: &str,
) -> io::Result<()> {
    let lines = lines_of(rt.alloc(), text)?;
    let mut journals = Journals::new(rt.alloc());
    tell_lines(rt, document, &mut journals, &lines)
}

/// Tells of each command and each row of a document of the folder.
pub fn tell<R: Files + Print + AllocGlobal>(rt: &R, name: &str) -> io::Result<()> {
    let text = fs::read_to_string(rt, name)?;
    let design = fs::read_to_string(rt, DESIGN)?;
    let document = Document {
        name,
        design: design.as_str(),
    };
    tell_each(rt, document, text.as_str())
}
