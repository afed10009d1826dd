//! Numbers as they are written.
use acc_base::bounds::LARGEST_NUMBER;

/// Whether a word is made of digits, and of one alone where it begins with 0.
pub fn is_numeral(word: &[u8]) -> bool {
    match word.split_first() {
        Some((first, rest)) => {
            let are_digits = rest.iter().all(|b| b.is_ascii_digit());
            first.is_ascii_digit() && are_digits && (*first != b'0' || rest.is_empty())
        }
        None => false,
    }
}

/// The value of digits, or the largest of 64 bits where it is beyond that.
pub fn value_of(digits: &[u8]) -> u64 {
    let mut value: u64 = 0;
    for byte in digits {
        let digit = byte.saturating_sub(b'0');
        value = value.saturating_mul(10).saturating_add(u64::from(digit));
    }
    value
}

/// The digits of a word behind its minus, if it has one.
fn magnitude(word: &[u8]) -> &[u8] {
    match word.split_first() {
        Some((b'-', digits)) => digits,
        _ => word,
    }
}

/// Whether a word is spelled as a whole number, and that isn't `-0`.
pub fn is_integer(word: &[u8]) -> bool {
    is_numeral(magnitude(word)) && word != b"-0".as_slice()
}

/// Whether a whole number is within the largest of 0.
pub fn is_within(word: &[u8]) -> bool {
    value_of(magnitude(word)) <= LARGEST_NUMBER
}
