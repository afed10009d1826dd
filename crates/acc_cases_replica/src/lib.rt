//! Cases of a replica of a design that is accepted with a certificate: what each line answers.
//!
//! A journal is spelled by two digits a byte, and '-' is none; behind `1+` or `2+` stand the bytes behind the base text of a journal of
//! that version and of the design's text. How a replica ends is told by its refusal, if it was refused, and by how many events are done,
//! of how many that came whole, and how many transactions are unfinished.
//!
//! - `pieces SIZE JOURNAL` feeds the journal in pieces of so many bytes, and tells behind which byte which items were done; and then the
//!   end, and the rows.
//! - `cuts JOURNAL` cuts it at each place into two pieces, and tells how many cuts there are, and each end with its rows once.
//! - `fronts JOURNAL` feeds each of its fronts, from none on, and tells the end of the first, and of each with another end than the one
//!   before, behind its length.
#![tactic(auto)]

mod ends;
mod followers;
mod journals;

use crate::followers::{push_cuts, push_fronts, push_pieces};
use crate::journals::journal;
use acc_cases_words::words::{number, parted};
use acc_lift::Accepted;
use std::alloc::{AllocError, Global};

/// Pushes what a line answers.
fn push_answer(
    alloc: Global,
    out: &mut String,
    design: &Accepted,
    line: &str,
) -> Result<(), AllocError> {
    let (verb, rest) = parted(line, " ");
    match verb {
        "pieces" => {
            let (size, word) = parted(rest, " ");
            let bytes = journal(alloc, design, word)?;
            push_pieces(alloc, out, design, number(size) as usize, &bytes)
        }
        "cuts" => push_cuts(alloc, out, design, &journal(alloc, design, rest)?),
        "fronts" => push_fronts(alloc, out, design, &journal(alloc, design, rest)?),
        _ => out.push_str("no question"),
    }
}

/// What a line answers.
pub fn answer(alloc: Global, design: &Accepted, line: &str) -> Result<String, AllocError> {
    let mut out = String::new(alloc);
    push_answer(alloc, &mut out, design, line)?;
    Ok(out)
}
