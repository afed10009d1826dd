//! The line on which a statement ends.
ghost use Rattle.std.specs.Prelude.{◌≡◌, ℕ, ◌<◌, ◌≤◌, ◌↔◌, List, IfOk};
ghost use Rattle.acc_lex.specs.declared.words.Word.{Word as WordValue};
ghost use Rattle.acc_lex.specs.Texts.{IsLexed};
ghost use Rattle.acc_parse_statements.specs.Ends.{ends};
ghost use Rattle.acc_parse_statements.specs.Lines.{HasStatement, IsLineOf, OnLine};

use crate::counts::ends;
use crate::lines::split_line;
use acc_lex::texts::words;
use std::alloc::{AllocError, Global};

/// A line of a text, and the statements that end on it.
#[derive(Clone, Copy)]
pub struct Line {
    /// The line, from 1.
    pub number: u64,
    /// The number of the first statement that ends on it, from 0.
    pub from: u64,
    /// The number of the statement behind those that end on it.
    pub to: u64,
}

/// How many statements end on a line.
fn ends_of(alloc: Global, line: &[u8]) -> Result<u64, AllocError>
    requires { (words : List WordValue) × IsLexed line.now words }
    ensures { IfOk result (λ n. (words : List WordValue) → IsLexed line.now words → n ≡ ends words) }
{
    match words(alloc, line) {
        Ok(found) => Ok(ends(found.as_slice()) as u64),
        Err(_) => Err(AllocError),
    }
}

/// The line on which the statement with the number `n`, from 0, ends. The cost is that of going over the text.
pub fn line_of(alloc: Global, text: &[u8], n: u64) -> Result<Line, AllocError>
    requires { HasStatement text.now n }
    ensures line { IfOk result (λ l. IsLineOf text.now n l.number) }
    ensures statements { IfOk result (λ l. OnLine text.now l.number l.from l.to) }
    // The others that end there are those with the numbers that are answered.
    ensures others { IfOk result (λ l. (m : ℕ) → IsLineOf text.now m l.number ↔ ((l.from ≤ m) × (m < l.to))) }
{
    let mut rest = text;
    let mut number = 1;
    let mut from = 0;
    while let Some((first, behind)) = split_line(rest) {
        let to = from + ends_of(alloc, first)?;
        if n < to {
            return Ok(Line { number, from, to });
        }
        rest = behind;
        number += 1;
        from = to;
    }
    let to = from + ends_of(alloc, rest)?;
    Ok(Line { number, from, to })
}
