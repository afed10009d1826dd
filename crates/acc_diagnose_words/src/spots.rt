//! A spot on a line, and what is wrong there.
use acc_page::Page;

/// A spot on a line of a file, what is wrong there in words, and how to mend it; the hint may be empty.
#[derive(Drop)]
pub struct Spot {
    /// The spot's first byte on its line, from 0.
    pub column: usize,
    /// How many bytes are marked.
    pub width: usize,
    pub what: Page,
    pub hint: Page,
}
