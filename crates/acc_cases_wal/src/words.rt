//! Bytes that words spell.
use std::alloc::{AllocError, Global};
use std::fmt::Write;

fn digit(byte: u8) -> u8 {
    match byte {
        b'0'..=b'9' => byte - b'0',
        b'a'..=b'f' => byte - b'a' + 10,
        _ => 0,
    }
}

fn byte(digits: &[u8]) -> u8 {
    digits.iter().fold(
        0u8,
        |byte, next| byte.wrapping_mul(16).wrapping_add(digit(*next)),
    )
}

/// The bytes that a word spells, two digits each, and none for '-'.
pub fn bytes(alloc: Global, word: &str) -> Result<Vec<u8>, AllocError> {
    let digits = if word == "-" { "" } else { word };
    digits.as_bytes().chunks(2).map(byte).collect(alloc)
}

/// Pushes bytes, two digits each, and '-' for none.
pub fn push_bytes(out: &mut String, bytes: &[u8]) -> Result<(), AllocError> {
    if bytes.is_empty() {
        return out.push_str("-");
    }
    for byte in bytes {
        write!(out, "{byte:02x}")?;
    }
    Ok(())
}
