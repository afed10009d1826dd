//! Texts of rows.
ghost use Rattle.acc_ckpt.specs.Texts.{IsState};

use crate::words::{bytes, push_bytes};
use acc_base::tables::{Plain, Row};
use acc_cases_words::push_row;
use acc_ckpt::{CkptError, read, text, text_len};
use std::alloc::{AllocError, Global};
use std::fmt::Write;

/// Pushes the rows, with a comma behind each.
fn push_rows(out: &mut String, rows: &[Row]) -> Result<(), AllocError> {
    for row in rows {
        push_row(out, row)?;
        out.push_str(", ")?;
    }
    Ok(())
}

/// Pushes the text of the rows, behind its length.
#[tactic(auto, using(acc_ckpt::proofs::States::counted))]
fn push_text(alloc: Global, out: &mut String, state: &Plain) -> Result<(), AllocError>
    requires { IsState state.now.rows }
{
    write!(out, "{} bytes ", text_len(state))?;
    match text(alloc, state) {
        Ok(text) => push_bytes(out, &text),
        Err(CkptError::Memory | CkptError::NotState) => Err(AllocError),
    }
}

/// Pushes the rows that have the text of a word, and their text; or that none have it.
pub fn push_state(alloc: Global, out: &mut String, word: &str) -> Result<(), AllocError> {
    match read(alloc, &bytes(alloc, word)?) {
        Ok(state) => {
            push_rows(out, state.rows.as_slice())?;
            push_text(alloc, out, &state)
        }
        Err(CkptError::NotState) => out.push_str("no state"),
        Err(CkptError::Memory) => Err(AllocError),
    }
}
