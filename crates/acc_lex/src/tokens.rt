//! The tokens of a design's text.

/// What a token is.
#[derive(Clone, Copy, Debug)]
pub enum Kind {
    /// A name, or a word that the grammar fixes.
    Word,
    Number,
    Mark,
    /// The end of a statement: a `;`, a line feed, or the end of the text.
    End,
}

/// The bytes `from..to` of a text, on a line of it, counted from 1.
#[derive(Clone, Copy)]
pub struct Token {
    pub line: u64,
    pub from: u64,
    pub to: u64,
    pub kind: Kind,
}
