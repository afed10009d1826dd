//! Bytes that a line can't have, and paths.
use std::alloc::{AllocError, Global};
use std::fmt::Write;

/// The bytes of a text, in which `\x` stands for the byte 255, which no UTF-8 has.
pub fn bytes(alloc: Global, text: &str) -> Result<Vec<u8>, AllocError> {
    let mut bytes = Vec::new(alloc);
    let mut first = true;
    for piece in text.split("\\x") {
        if !first {
            bytes.push(255)?;
        }
        first = false;
        bytes.extend_from_slice(piece.as_bytes())?;
    }
    Ok(bytes)
}

/// Pushes that there is no certificate at the place that these numbers lead to, with commas between them.
pub fn push_path(out: &mut String, numbers: &[u64]) -> Result<(), AllocError> {
    out.push_str("no certificate at [")?;
    let mut first = true;
    for number in numbers {
        if !first {
            out.push_str(",")?;
        }
        first = false;
        write!(out, "{number}")?;
    }
    out.push_str("]")
}
