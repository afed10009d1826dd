//! The words of a call behind its parameters: its tape, and after how many steps it is asked to turn.
ghost use Rattle.std.specs.Prelude.{◌≡◌, ◌≢◌, ℕ, ◌≤◌, List, [], ◌∷◌, Option, MatchOption, IfOk, ℤ};
ghost use Rattle.std.specs.Fmt.{decimal, signed_decimal};
ghost use Rattle.acc_base.specs.Numbers.{IsSmall};
ghost use Rattle.acc_script.specs.CallLines.{ask_words};
ghost use Rattle.acc_script.specs.CallParts.{BeginsNoNumber, TakesNumbers, TakesTape, AreRest, AreAsk};

use crate::cuts::Words;
use crate::errors::LineError;
use crate::numbers::{integer, steps};
use acc_base::bounds::{LATEST_ASK, LONGEST_TAPE};
use acc_base::sequences::Seq;
use std::alloc::Global;

/// The value of the next word, where it spells a number within 2^45 of 0; else the word stays.
fn next_number(words: &mut Words) -> Option<i64>
    ensures { MatchOption result ((words.new ≡ words.old) × BeginsNoNumber words.old)
        (λ v. IsSmall v × (words.old ≡ signed_decimal v ∷ words.new)) }
{
    let value = integer(words.first()?)?;
    words.next();
    Some(value)
}

/// The numbers that come next, all of them; after an error it is not known which words are left.
fn numbers(alloc: Global, words: &mut Words) -> Result<Seq<i64>, LineError>
    ensures ok { IfOk result (λ tape. TakesNumbers words.old tape words.new) }
    ensures refused { result ≡ Err LineError.Refused
        → (tape : List ℤ) (left : List (List ℕ)) → ¬ TakesNumbers words.old tape left }
{
    let mut tape = Seq::new(alloc);
    while let Some(value) = next_number(words) {
        if tape.len() == LONGEST_TAPE {
            return Err(LineError::Refused);
        }
        tape.push(value)?;
    }
    Ok(tape)
}

/// The tape that comes next, an empty one where there is none; after an error it is not known which words are left.
pub fn tape(alloc: Global, words: &mut Words) -> Result<Seq<i64>, LineError>
    ensures ok { IfOk result (λ tape. TakesTape words.old tape words.new) }
    ensures only { IfOk result (λ found. (tape : List ℤ) (ask : Option ℕ)
        → AreRest words.old tape ask → (tape ≡ found) × (words.new ≡ ask_words ask)) }
    ensures refused { result ≡ Err LineError.Refused
        → (tape : List ℤ) (ask : Option ℕ) → ¬ AreRest words.old tape ask }
{
    if words.skip(b"|") {
        numbers(alloc, words)
    } else {
        Ok(Seq::new(alloc))
    }
}

/// After how many steps the call is asked to turn, if the words that are left say so.
pub fn ask(words: &mut Words) -> Result<Option<u32>, LineError>
    ensures ok { IfOk result (AreAsk words.old) }
    ensures refused { result ≡ Err LineError.Refused → (ask : Option ℕ) → ¬ AreAsk words.old ask }
{
    if words.skip(b"@") {
        Ok(Some(last_steps(words)?))
    } else if words.next().is_some() {
        Err(LineError::Refused)
    } else {
        Ok(None)
    }
}

/// The number of steps that the last word says.
fn last_steps(words: &mut Words) -> Result<u32, LineError>
    ensures ok { IfOk result (λ n. (n ≤ LATEST_ASK) × (words.old ≡ decimal n ∷ [])) }
    ensures refused { result ≡ Err LineError.Refused → (n : ℕ) → n ≤ LATEST_ASK → words.old ≢ decimal n ∷ [] }
{
    let Some(word) = words.next() else {
        return Err(LineError::Refused);
    };
    if words.next().is_some() {
        return Err(LineError::Refused);
    }
    steps(word).ok_or(LineError::Refused)
}
