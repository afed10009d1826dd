//! The word of an order's line that is refused.
use crate::numbers::{is_numeral, value_of};
use crate::scripts::{LineWord, mark, next_word};
use crate::statements::line_spot;
use acc_base::bounds::MOST_TURNS;
use acc_diagnose_words::{Spot, push_quoted, push_with};
use std::alloc::Global;

/// Whether a word is the number of one of so many places.
fn is_place(word: LineWord, places: u64) -> bool {
    let value = value_of(word.bytes);
    is_numeral(word.bytes) && 1 <= value && value <= places
}

/// The first word of a line that is the number of no place.
fn wrong_word(line: &[u8], places: u64) -> Option<LineWord> {
    let mut at = 0;
    for _ in 0..line.len() {
        let word = next_word(line, at)?;
        if !is_place(word, places) {
            return Some(word);
        }
        at = word.at.saturating_add(word.bytes.len());
    }
    None
}

/// The spot of a refused line of an order over so many places.
pub fn order_spot(alloc: Global, places: u64, line: &[u8]) -> Spot {
    let mut spot = line_spot(alloc);
    match wrong_word(line, places) {
        Some(word) => {
            mark(&mut spot, word);
            push_quoted(&mut spot.what, word.bytes);
            spot.what.push(b" is the number of no transaction");
            spot.hint.push(b"the script has ");
            spot.hint.push_number(places);
            spot.hint.push(b" transactions; their numbers begin at 1, without leading zeros");
        }
        None => push_with(
            &mut spot.what,
            b"an order has at most ",
            MOST_TURNS,
            b" numbers",
        ),
    }
    spot
}
