//! Places in JSON texts, by scanning: which byte an item of an array begins with, and which byte it ends with.

/// How far a scan of a JSON text is.
#[derive(Clone, Copy)]
struct Scan {
    /// How many arrays and objects are open.
    depth: u64,
    is_string: bool,
    /// Whether the byte before is a `\` of a string.
    is_escaped: bool,
}

impl Scan {
    fn new() -> Self {
        Scan {
            depth: 0,
            is_string: false,
            is_escaped: false,
        }
    }

    /// The scan behind a byte of a string.
    fn in_string(self, byte: u8) -> Self {
        let is_end = byte == b'"' && !self.is_escaped;
        Scan {
            depth: self.depth,
            is_string: !is_end,
            is_escaped: byte == b'\\' && !self.is_escaped,
        }
    }

    /// The scan behind a byte.
    fn next(self, byte: u8) -> Self {
        if self.is_string {
            return self.in_string(byte);
        }
        let depth = match byte {
            b'[' | b'{' => self.depth.saturating_add(1),
            b']' | b'}' => self.depth.saturating_sub(1),
            _ => self.depth,
        };
        Scan {
            depth,
            is_string: byte == b'"',
            is_escaped: false,
        }
    }
}

/// Whether a byte is a blank of JSON.
fn is_blank(byte: u8) -> bool {
    matches!(byte, b' ' | b'\t' | b'\n' | b'\r')
}

/// The bytes from this place on.
fn rest_of(text: &[u8], from: usize) -> &[u8] {
    &text[from.min(text.len())..]
}

/// Where the first byte stands that is no blank; the text's end where there is none.
pub fn start_of(text: &[u8]) -> usize {
    match text.iter().position(|b| !is_blank(*b)) {
        Some(place) => place,
        None => text.len(),
    }
}

/// Where the item of an array begins that has this number, from 0; the array begins at `from`.
fn item_at(text: &[u8], from: usize, number: u64) -> Option<usize> {
    let mut scan = Scan::new();
    let mut left = number;
    for (i, byte) in rest_of(text, from).iter().enumerate() {
        let is_between = scan.depth == 1 && !scan.is_string;
        if is_between && *byte == b',' {
            left = left.checked_sub(1)?;
        } else if is_between && *byte == b']' {
            return None;
        } else if is_between && left == 0 && !is_blank(*byte) {
            return Some(from.saturating_add(i));
        }
        scan = scan.next(*byte);
    }
    None
}

/// How many items an array has that begins at `from`.
pub fn items_in(text: &[u8], from: usize) -> u64 {
    let mut scan = Scan::new();
    let mut count: u64 = 0;
    let mut is_empty = true;
    for byte in rest_of(text, from) {
        let is_between = scan.depth == 1 && !scan.is_string;
        if is_between && *byte == b']' {
            return if is_empty { 0 } else { count.saturating_add(1) };
        }
        if is_between && !is_blank(*byte) {
            is_empty = false;
        }
        if is_between && *byte == b',' {
            count = count.saturating_add(1);
        }
        scan = scan.next(*byte);
    }
    count
}

/// How many bytes the value has that begins at `from`.
pub fn width_of(text: &[u8], from: usize) -> usize {
    let mut scan = Scan::new();
    for (i, byte) in rest_of(text, from).iter().enumerate() {
        let is_outside = scan.depth == 0 && !scan.is_string;
        if is_outside
            && i > 0
            && matches!(*byte, b',' | b']' | b'}' | b' ' | b'\t' | b'\n' | b'\r')
        {
            return i;
        }
        scan = scan.next(*byte);
    }
    rest_of(text, from).len()
}

/// The bytes of the value that begins at `from`.
pub fn value_at(text: &[u8], from: usize) -> &[u8] {
    let rest = rest_of(text, from);
    &rest[..width_of(text, from).min(rest.len())]
}

/// The bytes of the item of an array that has this number; none where there is no such item.
pub fn item_of(text: &[u8], from: usize, number: u64) -> &[u8] {
    match item_at(text, from, number) {
        Some(place) => value_at(text, place),
        None => &[],
    }
}

/// Where the item begins to which these numbers lead from the value at the text's start, or the last value on the way there.
pub fn place_of(text: &[u8], path: &[u64]) -> usize {
    let mut place = start_of(text);
    for number in path {
        match item_at(text, place, *number) {
            Some(item) => place = item,
            None => return place,
        }
    }
    place
}

/// The line of a place of a text, from 1, and its column there, from 0.
pub fn line_and_column(text: &[u8], place: usize) -> (u64, usize) {
    let mut line: u64 = 1;
    let mut column: usize = 0;
    for byte in &text[..place.min(text.len())] {
        if *byte == b'\n' {
            line = line.saturating_add(1);
            column = 0;
        } else {
            column = column.saturating_add(1);
        }
    }
    (line, column)
}
