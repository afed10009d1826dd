//! Where a certificate's file is wrong.
use crate::json::{item_of, items_in, line_and_column, place_of, start_of, value_at};
use crate::shapes::{PartShape, is_array, item_shape, push_shape};
use acc_diagnose_spot::line_spot;
use acc_diagnose_words::Spot;
use serde_json::Value;
use std::alloc::Global;

/// A spot of a file with its line, from 1.
#[derive(Drop)]
pub struct Marked {
    pub line: u64,
    pub spot: Spot,
}

/// The mark of the value at a place, of which nothing is said yet.
fn value_mark(alloc: Global, text: &[u8], place: usize) -> Marked {
    let (line, column) = line_and_column(text, place);
    let mut spot = line_spot(alloc);
    spot.column = column;
    spot.width = value_at(text, place).len();
    Marked { line, spot }
}

/// The number that some digits spell, as far as it is small; 0 where they are none.
fn small_number(digits: &[u8]) -> u64 {
    let mut number: u64 = 0;
    for digit in digits {
        if !digit.is_ascii_digit() {
            return 0;
        }
        number = number
            .saturating_mul(10)
            .saturating_add(u64::from(*digit - b'0'));
    }
    number
}

/// What the part to which these numbers lead should be.
fn shape_at(text: &[u8], path: &[u64]) -> PartShape {
    let mut shape = PartShape::Certificate;
    for (i, number) in path.iter().enumerate() {
        let place = place_of(text, &path[..i]);
        let axiom = small_number(item_of(text, place, 1));
        shape = item_shape(shape, item_of(text, place, 0), axiom, *number);
    }
    shape
}

/// What is found: an item too many, or an array of so many items.
fn push_found(spot: &mut Spot, text: &[u8], place: usize, shape: PartShape) {
    if shape == PartShape::Surplus {
        return spot.what.push(b"; this item is too many");
    }
    match value_at(text, place).first() {
        Some(b'[') if is_array(shape) => {
            let count = items_in(text, place);
            spot.what.push(b"; the array here has ");
            spot.what.push_number(count);
            spot.what
                .push(if count == 1 { b" item" } else { b" items" })
        }
        _ => {}
    }
}

/// The mark of the first fault of a text that is no JSON.
fn syntax_mark(alloc: Global, text: &[u8]) -> Option<Marked> {
    match Value::from_slice(alloc, text) {
        Ok(_) => None,
        Err(error) => {
            let mut spot = line_spot(alloc);
            spot.column = error.column().saturating_sub(1);
            Some(Marked {
                line: error.line() as u64,
                spot,
            })
        }
    }
}

/// What is wrong with a text that is no JSON.
fn push_syntax(spot: &mut Spot) {
    spot.what.push(b"this is no JSON text: nothing that is one goes on like this");
    spot.hint.push(
        b"a certificate is a JSON array with a proof an obligation, nested at most 12 deep, in bytes of UTF-8",
    )
}

/// The mark of the part of a certificate to which these numbers lead, with what should stand there.
fn part_mark(alloc: Global, text: &[u8], path: &[u64]) -> Marked {
    let place = place_of(text, path);
    let shape = shape_at(text, path);
    let mut mark = value_mark(alloc, text, place);
    mark.spot.what.push(b"expected ");
    push_shape(&mut mark.spot.what, shape);
    push_found(&mut mark.spot, text, place, shape);
    mark.spot
        .hint
        .push(b"docs/CERTIFICATES.md has the shape of each part");
    mark
}

/// The mark of what is off in a file that is no certificate: the part to which these numbers lead from the whole, or else the first
/// byte with which no JSON text goes on.
pub fn off_mark(alloc: Global, text: &[u8], path: &[u64]) -> Marked {
    if path.is_empty() {
        if let Some(mut mark) = syntax_mark(alloc, text) {
            push_syntax(&mut mark.spot);
            return mark;
        }
    }
    part_mark(alloc, text, path)
}

/// The mark of the proof with this number, from 0, in a certificate, of which nothing is said yet.
pub fn proof_mark(alloc: Global, text: &[u8], number: u64) -> Marked {
    value_mark(alloc, text, place_of(text, &[number]))
}

/// How many proofs a certificate has.
pub fn proofs_in(text: &[u8]) -> u64 {
    items_in(text, start_of(text))
}
