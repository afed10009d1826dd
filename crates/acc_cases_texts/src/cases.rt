//! The bytes that a case stands for.
ghost use Rattle.std.specs.Prelude.{◌<◌};

use std::alloc::{AllocError, Global};

/// The number that a word spells; else the largest.
pub fn number(word: &str) -> u64 {
    word.parse().unwrap_or(u64::MAX)
}

/// What a digit of base 16 stands for.
fn digit(c: u8) -> u8
    ensures { result < 16 }
{
    match c {
        b'0'..=b'9' => c - b'0',
        b'a'..=b'f' => c - b'a' + 10,
        _ => 0,
    }
}

/// The byte that stands behind a `\`, and what stands behind it.
fn escaped(piece: &[u8]) -> (u8, &[u8]) {
    match piece {
        [b'n', rest @ ..] => (b'\n', rest),
        [high, low, rest @ ..] => (16 * digit(*high) + digit(*low), rest),
        _ => (b'\\', piece),
    }
}

/// Adds the bytes that the text stands for.
fn add_bytes(bytes: &mut Vec<u8>, text: &str) -> Result<(), AllocError> {
    let mut pieces = text.split('\\');
    if let Some(first) = pieces.next() {
        bytes.extend_from_slice(first.as_bytes())?;
    }
    for piece in pieces {
        let (byte, rest) = escaped(piece.as_bytes());
        bytes.push(byte)?;
        bytes.extend_from_slice(rest)?;
    }
    Ok(())
}

/// Adds so many times the bytes that the piece stands for.
fn add_repeated(bytes: &mut Vec<u8>, piece: &str, count: u64) -> Result<(), AllocError> {
    for _ in 0..count {
        add_bytes(bytes, piece)?;
    }
    Ok(())
}

/// The part with this number; nothing where there are fewer.
fn part<'a>(parts: &[&'a str], number: usize) -> &'a str {
    match parts.get(number) {
        Some(part) => part,
        None => "",
    }
}

/// Adds the bytes of the base with other parts in place of the first of them.
fn add_changed(bytes: &mut Vec<u8>, base: &str, parts: &[&str]) -> Result<(), AllocError> {
    let (before, after) = base.split_once(part(parts, 0)).unwrap_or(("", ""));
    add_bytes(bytes, before)?;
    add_bytes(bytes, part(parts, 1))?;
    add_repeated(bytes, part(parts, 2), part(parts, 3).parse().unwrap_or(0))?;
    add_bytes(bytes, part(parts, 4))?;
    add_bytes(bytes, after)
}

/// Adds the bytes of the text that a case names.
fn add_case(alloc: Global, bytes: &mut Vec<u8>, base: &str, case: &str) -> Result<(), AllocError> {
    let parts: Vec<&str> = case.split('|').collect(alloc)?;
    if parts.len() > 1 {
        add_changed(bytes, base, parts.as_slice())
    } else {
        add_bytes(bytes, case)
    }
}

/// The bytes of the text that a case names: itself, or the base with other bytes in place of a piece of it.
pub fn bytes_of(alloc: Global, base: &str, case: &str) -> Result<Vec<u8>, AllocError> {
    let mut bytes = Vec::new(alloc);
    add_case(alloc, &mut bytes, base, case)?;
    Ok(bytes)
}
