//! What a message repeats of a file.
use acc_page::Page;

/// The most bytes of a word that a message repeats.
const MOST_QUOTED: usize = 40;

/// A byte as it is shown: one that can't be printed as `?`.
fn shown(byte: u8) -> u8 {
    if byte < b' ' || byte > b'~' {
        b'?'
    } else {
        byte
    }
}

/// Writes bytes, those that can't be printed as `?`.
pub fn push_shown(out: &mut Page, bytes: &[u8]) {
    for byte in bytes {
        out.push(&[shown(*byte)]);
    }
}

/// Writes a word of the file in quotes; a long one is cut off.
pub fn push_quoted(out: &mut Page, word: &[u8]) {
    let front = &word[..word.len().min(MOST_QUOTED)];
    out.push(b"`");
    push_shown(out, front);
    if word.len() > MOST_QUOTED {
        out.push(b"..");
    }
    out.push(b"`");
}
