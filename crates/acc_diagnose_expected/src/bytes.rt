//! The first byte of a line with which no text goes on, and what is said of it.
use crate::around::Neighbours;
use crate::asked::Could::Free;
use crate::asked::Misplaced::Front;
use crate::asked::MistakePlace::{Anywhere, BehindName, In};
use crate::hints;
use crate::mistakes::{Mistake, hint_among, push_hint};
use crate::wanted::Alternatives;
use acc_lex::language::{PRIVATE, TABLE, TYPE};
use acc_page::Page;
use std::alloc::Global;

/// What the bytes before one are part of.
#[derive(Clone, Copy)]
enum ByteRun {
    Gap,
    Name,
    Zero,
    Number,
}

/// What a byte is part of, behind others; none where it can't follow.
fn next_run(run: ByteRun, byte: u8) -> Option<ByteRun> {
    if byte.is_ascii_alphabetic() || byte == b'_' {
        match run {
            ByteRun::Gap if byte == b'_' => None,
            ByteRun::Gap | ByteRun::Name => Some(ByteRun::Name),
            ByteRun::Zero | ByteRun::Number => None,
        }
    } else if byte.is_ascii_digit() {
        match run {
            ByteRun::Gap if byte == b'0' => Some(ByteRun::Zero),
            ByteRun::Gap | ByteRun::Number => Some(ByteRun::Number),
            ByteRun::Name => Some(ByteRun::Name),
            ByteRun::Zero => None,
        }
    } else {
        Some(ByteRun::Gap)
    }
}

/// Whether a byte that is no part of a name or a number can stand between these two.
fn is_mark(before: u8, byte: u8, next: u8) -> bool {
    match byte {
        b'<' => next == b'=',
        b'>' => next == b'=' || before == b'=',
        b' ' | b';' | b'[' | b']' | b',' | b'.' | b':' | b'=' | b'+' | b'-' | b'*' => true,
        _ => byte.is_ascii_alphanumeric() || byte == b'_',
    }
}

/// Whether a line is a comment: its first byte past spaces is `#`.
fn is_comment(line: &[u8]) -> bool {
    line.iter().find(|b| **b != b' ') == Some(&b'#')
}

/// The place of the first byte of a comment that can't stand there.
fn bad_in_comment(line: &[u8]) -> Option<usize> {
    line.iter().position(|b| *b < b' ' || *b > b'~')
}

/// The place of the first byte that can't stand in a line, where one is found.
pub fn bad_byte(line: &[u8]) -> Option<usize> {
    if is_comment(line) {
        return bad_in_comment(line);
    }
    let mut run = ByteRun::Gap;
    let mut before = b' ';
    for (i, byte) in line.iter().enumerate() {
        let next = line.get(i + 1).copied().unwrap_or(b' ');
        match next_run(run, *byte) {
            Some(now) if is_mark(before, *byte, next) => run = now,
            _ => return Some(i),
        }
        before = *byte;
    }
    None
}

/// How many usual bytes that can't stand in a text there are.
const COUNT: usize = 24;

/// The usual bytes that can't stand in a text, with what stands behind them; where several fit, the first is told.
const BYTES: [Mistake; COUNT] = [
    (Anywhere, Free, Front(b"<>"), hints::UNEQUAL),
    (Anywhere, Free, Front(b"<"), hints::LESS),
    (Anywhere, Free, Front(b">"), hints::MORE),
    (Anywhere, Free, Front(b"!"), hints::UNEQUAL),
    (Anywhere, Free, Front(b"#"), hints::COMMENT),
    (Anywhere, Free, Front(b"//"), hints::COMMENT),
    (Anywhere, Free, Front(b"/*"), hints::COMMENT),
    (Anywhere, Free, Front(b"/"), hints::QUOTIENT),
    (Anywhere, Free, Front(b"%"), hints::REMAINDER),
    (Anywhere, Free, Front(b"\t"), hints::TAB),
    (Anywhere, Free, Front(b"\r"), hints::CARRIAGE_RETURN),
    (In(TABLE), Free, Front(b"("), hints::COMPONENTS),
    (In(PRIVATE), Free, Front(b"("), hints::COMPONENTS),
    (In(TYPE), Free, Front(b"("), hints::PARAMETERS),
    (BehindName, Free, Front(b"("), hints::NO_BRACKETS),
    (Anywhere, Free, Front(b"("), hints::NO_PARENTHESES),
    (Anywhere, Free, Front(b")"), hints::NO_PARENTHESES),
    (Anywhere, Free, Front(b"{"), hints::NO_BRACES),
    (Anywhere, Free, Front(b"}"), hints::NO_BRACES),
    (Anywhere, Free, Front(b"\""), hints::NO_QUOTES),
    (Anywhere, Free, Front(b"'"), hints::NO_QUOTES),
    (Anywhere, Free, Front(b"&"), hints::NO_AND),
    (Anywhere, Free, Front(b"|"), hints::NO_OR),
    (Anywhere, Free, Front(b"_"), hints::UNDERSCORE),
];

/// How a byte that can't stand in a text is mended, whatever stands round it.
fn plain_hint(byte: u8) -> &'static [u8] {
    if byte.is_ascii_digit() {
        hints::ZERO
    } else if byte.is_ascii_alphabetic() {
        hints::LETTER
    } else if byte < b' ' || byte > b'~' {
        hints::NO_TEXT
    } else {
        hints::MARKS
    }
}

/// Writes how a byte that can't stand in a text is mended; what was found begins with it.
pub fn push_byte_hint(alloc: Global, out: &mut Page, around: Neighbours, byte: u8) {
    let usual = hint_among(&BYTES, around, &Alternatives::nothing(alloc));
    let hint = if usual.is_empty() {
        plain_hint(byte)
    } else {
        usual
    };
    push_hint(out, hint, around)
}
