//! What stands round the word of a text with which no design goes on.
use acc_diagnose_spot::bytes_of;
use acc_lex::{Kind, Token};

/// The words round a place of a text; each is empty where there is none.
#[derive(Clone, Copy)]
pub struct Neighbours<'a> {
    /// The word with which the statement begins; none at the head of one.
    pub statement: &'a [u8],
    /// The word before within the statement; at the head of one, the word with which the statement before begins.
    pub before: &'a [u8],
    /// What stands at the place; nothing where the text ends.
    pub found: &'a [u8],
}

impl<'a> Neighbours<'a> {
    /// What stands round a place of which nothing is known.
    pub fn nothing() -> Self {
        Neighbours {
            statement: &[],
            before: &[],
            found: &[],
        }
    }

    /// The same place, where this was found.
    pub fn with(self, found: &'a [u8]) -> Self {
        Neighbours {
            statement: self.statement,
            before: self.before,
            found,
        }
    }
}

/// What stands round the first token of a text that begins at this byte or behind it, or round the text's end. Empty statements
/// don't count.
pub fn around_at<'a>(text: &'a [u8], tokens: &[Token], from: u64) -> Neighbours<'a> {
    let mut statement: &[u8] = &[];
    let mut before: &[u8] = &[];
    for token in tokens {
        let word = bytes_of(text, token);
        let is_end = token.kind == Kind::End;
        if token.from >= from {
            return Neighbours {
                statement,
                before,
                found: word,
            };
        }
        if is_end && !statement.is_empty() {
            before = statement;
            statement = &[];
        } else if !is_end && statement.is_empty() {
            statement = word;
            before = word;
        } else if !is_end {
            before = word;
        }
    }
    Neighbours {
        statement,
        before,
        found: &[],
    }
}
