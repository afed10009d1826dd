//! Texts with backslashes.
use acc_cases_words::words::parted;
use std::alloc::{AllocError, Global};

/// The byte that a letter behind a backslash stands for.
fn escape(letter: u8) -> u8 {
    match letter {
        b'n' => b'\n',
        b'r' => b'\r',
        b't' => b'\t',
        b's' => b' ',
        b'0' => 0,
        _ => 0xff,
    }
}

fn push_escaped(bytes: &mut Vec<u8>, piece: &[u8]) -> Result<(), AllocError> {
    if let Some((letter, rest)) = piece.split_first() {
        bytes.push(escape(*letter))?;
        bytes.extend_from_slice(rest)?;
    }
    Ok(())
}

/// The bytes of a text with backslashes: `\n`, `\r`, `\t`, `\s` for a space, `\0`, and `\x` for the byte 255.
pub fn bytes(alloc: Global, text: &str) -> Result<Vec<u8>, AllocError> {
    let (plain, rest) = parted(text, "\\");
    let mut bytes = plain.as_bytes().to_vec(alloc)?;
    if rest.is_empty() {
        return Ok(bytes);
    }
    for piece in rest.split('\\') {
        push_escaped(&mut bytes, piece.as_bytes())?;
    }
    Ok(bytes)
}
