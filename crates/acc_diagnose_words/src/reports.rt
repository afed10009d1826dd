//! How a message is laid out: the place, what is wrong, the line with a mark below, and the hint.
use crate::spots::Spot;
use crate::texts::push_shown;
use acc_page::Page;

/// The most bytes of a line that are shown.
const MOST_SHOWN: usize = 100;
/// How many of them stand before the spot, where the line is cut off at its beginning.
const BEFORE: usize = 40;

/// The first line of a text, and what stands behind its line feed, if it has one.
fn split_line(text: &[u8]) -> Option<(&[u8], &[u8])> {
    match text.iter().position(|b| *b == b'\n') {
        Some(end) => Some((&text[..end], &text[end + 1..])),
        None => None,
    }
}

/// The line of a text with this number, from 1, without its line feed; an empty one where the text has fewer.
pub fn line_at(text: &[u8], number: u64) -> &[u8] {
    let mut rest = text;
    for _ in 1..number {
        rest = match split_line(rest) {
            Some((_, behind)) => behind,
            None => return &[],
        };
    }
    match split_line(rest) {
        Some((first, _)) => first,
        None => rest,
    }
}

/// The part of a line that is shown, and where the spot begins within it.
fn cut(line: &[u8], column: usize) -> (&[u8], usize) {
    let skipped = if line.len() > MOST_SHOWN {
        column.saturating_sub(BEFORE).min(line.len())
    } else {
        0
    };
    let rest = &line[skipped..];
    let shown = &rest[..rest.len().min(MOST_SHOWN)];
    (shown, column.saturating_sub(skipped).min(shown.len()))
}

/// Writes a byte so many times.
fn push_times(out: &mut Page, byte: u8, times: usize) {
    for _ in 0..times {
        out.push(&[byte]);
    }
}

/// The line, and below it the mark of the spot; nothing where the line is empty.
fn push_line(out: &mut Page, line: &[u8], spot: &Spot) {
    if line.is_empty() {
        return;
    }
    let (shown, column) = cut(line, spot.column);
    out.push(b"    ");
    push_shown(out, shown);
    out.push(b"\n    ");
    push_times(out, b' ', column);
    let most = shown.len().saturating_sub(column).max(1);
    push_times(out, b'^', spot.width.max(1).min(most));
    out.push(b"\n");
}

/// `FILE:LINE:COLUMN: ` and what is wrong there.
fn push_place(out: &mut Page, file: &[u8], line: u64, spot: &Spot) {
    push_shown(out, file);
    out.push(b":");
    out.push_number(line);
    out.push(b":");
    out.push_number((spot.column as u64).saturating_add(1));
    out.push(b": ");
    out.push_page(&spot.what);
    out.push(b"\n");
}

/// Writes a message on a file: the place, what is wrong, the line with a mark, the hint.
pub fn push_report(out: &mut Page, file: &[u8], text: &[u8], line: u64, spot: &Spot) {
    push_place(out, file, line, spot);
    push_line(out, line_at(text, line), spot);
    if !spot.hint.is_empty() {
        out.push(b"hint: ");
        out.push_page(&spot.hint);
        out.push(b"\n");
    }
}

/// Begins a message without a line, by the name of what it is about; what is wrong follows.
pub fn begin_note(out: &mut Page, name: &[u8]) {
    push_shown(out, name);
    out.push(b": ");
}

/// Ends a message without a line behind what is wrong, with the hint, if there is one.
pub fn end_note(out: &mut Page, hint: &[u8]) {
    out.push(b"\n");
    if !hint.is_empty() {
        out.push(b"hint: ");
        out.push(hint);
        out.push(b"\n");
    }
}

/// Writes a message without a line: the name, what is wrong, the hint.
pub fn push_note(out: &mut Page, name: &[u8], what: &[u8], hint: &[u8]) {
    begin_note(out, name);
    out.push(what);
    end_note(out, hint);
}
