//! Cases of the designs of files, and of designs that no text spells: the lines that each question answers.
//!
//! - `changed FILE CHANGE` answers whether the design of a file keeps the form rules with a change, or the lowest rule that it breaks and
//!   the first line that breaks it, of the design as it is printed.
//! - `printed FILE` answers the print of the design of a file whose last entry has other pairs: the first parameter with itself, and the
//!   first local with the number of the transaction.
//! - `no path` answers whether a step of a runnable design that has no path is out of range, and looks so, on both sides.
//! - `prove FILE` answers the lines of the obligations that aren't proved, as they are told of the design of that file; or, where all are
//!   proved, how many proofs the certificate has, and what is told of the design with it.
//! - `certificate FILE` answers the certificate itself.
//! - `kinds FILE` answers what `prove` does, each line without the numbers of its point.
#![tactic(auto)]

mod changes;
mod designs;
mod prints;
mod proofs;
mod steps;

use std::alloc::{AllocError, Global};
use std::rt::Files;
use std::{fs, io};

/// What a question answers of the design of a text.
fn answered(alloc: Global, verb: &str, text: &str, change: &str) -> Result<String, AllocError> {
    match verb {
        "changed" => changes::changed(alloc, text, change),
        "printed" => prints::printed(alloc, text),
        "prove" => proofs::proved(alloc, text),
        "certificate" => proofs::certificate_of(alloc, text),
        "kinds" => proofs::kinds_of(alloc, text),
        _ => String::from_str(alloc, "no question\n"),
    }
}

/// What a question about the design of a file answers.
fn answer_of_file<R: Files + AllocGlobal>(rt: &R, verb: &str, rest: &str) -> io::Result<String> {
    let (file, change) = rest.split_once(' ').unwrap_or((rest, ""));
    let text = fs::read_to_string(rt, file)?;
    Ok(answered(rt.alloc(), verb, &text, change)?)
}

/// The lines that a question answers.
pub fn answer<R: Files + AllocGlobal>(rt: &R, line: &str) -> io::Result<String> {
    let (verb, rest) = line.split_once(' ').unwrap_or((line, ""));
    match verb {
        "no" => Ok(steps::told(rt.alloc())?),
        _ => answer_of_file(rt, verb, rest),
    }
}
