//! Numbers in texts.
use acc_page::Page;
use itoa::{Buffer, Integer};

/// How many digits stand between two commas.
const GROUP: usize = 3;

/// Writes a number that isn't below 0, with commas between each three of its digits.
pub fn push_grouped<I: Integer>(out: &mut Page, number: I) {
    let mut buffer = Buffer::new();
    let digits = buffer.format(number).as_bytes();
    for (i, digit) in digits.iter().enumerate() {
        if i > 0 && (digits.len() - i) % GROUP == 0 {
            out.push(b",");
        }
        out.push(&[*digit]);
    }
}

/// Writes a text with a number in it, which isn't below 0.
pub fn push_with<I: Integer>(out: &mut Page, before: &[u8], number: I, behind: &[u8]) {
    out.push(before);
    push_grouped(out, number);
    out.push(behind);
}
