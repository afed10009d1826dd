//! Orders: the numbers of places.
ghost use Rattle.std.specs.Prelude.{◌≡◌, ℕ, ◌≤◌, List, All, length, IfOk, OnOk};
ghost use Rattle.acc_script.specs.LineReadings.{AddsSaid, IsTooMuch};
ghost use Rattle.acc_script.specs.OrderLines.{IsPlace, SaysPlaces, IsOrder, RefusesOrderLine, most_numbers};

use crate::cuts::{Pieces, Words, is_skipped};
use crate::errors::{LineError, ScriptError};
use crate::numbers::place;
use acc_base::bounds::MOST_TURNS;
use acc_base::sequences::Seq;
use std::alloc::Global;

/// Reads the numbers of a line; after an error a part of them may stand there.
fn push_places(numbers: &mut Seq<u64>, places: u64, line: &[u8]) -> Result<(), LineError>
    requires { length numbers.old ≤ most_numbers }
    ensures ok { OnOk result (AddsSaid (SaysPlaces places) most_numbers line.now numbers.old numbers.new) }
    ensures refused { result ≡ Err LineError.Refused → IsTooMuch (SaysPlaces places) most_numbers line.now (length numbers.old) }
{
    let mut words = Words::new(line);
    while let Some(word) = words.next() {
        let Some(number) = place(word, places) else {
            return Err(LineError::Refused);
        };
        if numbers.len() == MOST_TURNS {
            return Err(LineError::Refused);
        }
        numbers.push(number)?;
    }
    Ok(())
}

/// The numbers of an order over so many places, which are counted from 1. The cost is linear in the text.
pub fn order(alloc: Global, places: u64, text: &[u8]) -> Result<Seq<u64>, ScriptError>
    ensures ok { IfOk result (IsOrder places text.now) }
    ensures only { (numbers : List ℕ) → IsOrder places text.now numbers → IfOk result (λ found. found ≡ numbers) }
    ensures within { IfOk result (All (IsPlace places)) }
    ensures line { (n : ℕ) → result ≡ Err (ScriptError.Line n) → RefusesOrderLine places text.now n }
    ensures none { (n : ℕ) → result ≡ Err (ScriptError.Line n)
        → (numbers : List ℕ) → ¬ IsOrder places text.now numbers }
{
    let mut lines = Pieces::new(text, b'\n');
    let mut numbers = Seq::new(alloc);
    let mut count = 0;
    while let Some(line) = lines.next() {
        count += 1;
        if !is_skipped(line) {
            if let Err(e) = push_places(&mut numbers, places, line) {
                return Err(e.at(count));
            }
        }
    }
    Ok(numbers)
}
