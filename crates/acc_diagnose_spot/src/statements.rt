//! The statements of a text, by its tokens.
ghost use Rattle.std.specs.Prelude.{◌<◌, length, IfSome};

use acc_diagnose_words::Spot;
use acc_lex::{Kind, Token, keyword, language};
use acc_page::Page;
use std::alloc::Global;

/// Whether a word is one of some words.
pub fn is_one_of(words: &[&[u8]], word: &[u8]) -> bool {
    words.iter().any(|other| *other == word)
}

/// The bytes of a token.
pub fn bytes_of<'a>(text: &'a [u8], token: &Token) -> &'a [u8] {
    let to = (token.to as usize).min(text.len());
    let from = (token.from as usize).min(to);
    &text[from..to]
}

/// The tokens before the first end, and those behind it, if there is one.
pub fn split_statement(tokens: &[Token]) -> Option<(&[Token], &[Token])>
    ensures { IfSome result (λ p. length p.1.now < length tokens.now) }
{
    match tokens.iter().position(|token| token.kind == Kind::End) {
        Some(end) => Some((&tokens[..end], &tokens[end + 1..])),
        None => None,
    }
}

/// The word with which a statement begins.
pub fn head_of<'a>(text: &'a [u8], statement: &[Token]) -> &'a [u8] {
    word_at(text, statement, 0)
}

/// The bytes of a statement's token with this number, from 0; none where there is no such token.
pub fn word_at<'a>(text: &'a [u8], statement: &[Token], number: usize) -> &'a [u8] {
    match statement.get(number) {
        Some(token) => bytes_of(text, token),
        None => &[],
    }
}

/// Whether a token is a name.
pub fn is_name(text: &[u8], token: &Token) -> bool {
    token.kind == Kind::Word && keyword(bytes_of(text, token)).is_none()
}

/// A statement of a text.
#[derive(Clone, Copy)]
pub struct Statement<'a> {
    pub tokens: &'a [Token],
    /// The text's tokens from the statement of the type on within which it stands; none outside of types.
    pub of_type: &'a [Token],
}

/// The tokens from the type on within which the statement at the front of `rest` stands.
fn type_at<'a>(
    text: &[u8],
    of_type: &'a [Token],
    statement: &[Token],
    rest: &'a [Token],
) -> &'a [Token] {
    let head = head_of(text, statement);
    if head == language::TYPE {
        rest
    } else if head == language::ENTRY || head == language::HINT {
        &[]
    } else {
        of_type
    }
}

/// The statement of a text with this number, from 0; empty ones don't count.
pub fn statement_at<'a>(text: &[u8], tokens: &'a [Token], number: u64) -> Option<Statement<'a>> {
    let mut rest = tokens;
    let mut of_type: &[Token] = &[];
    let mut left = number;
    while let Some((statement, behind)) = split_statement(rest) {
        if !statement.is_empty() {
            of_type = type_at(text, of_type, statement, rest);
            if left == 0 {
                return Some(Statement {
                    tokens: statement,
                    of_type,
                });
            }
            left -= 1;
        }
        rest = behind;
    }
    None
}

/// Where a token begins on its line, from 0.
pub fn column_of(text: &[u8], token: &Token) -> usize {
    let from = (token.from as usize).min(text.len());
    let mut start = 0;
    for (i, byte) in text[..from].iter().enumerate() {
        if *byte == b'\n' {
            start = i + 1;
        }
    }
    from.saturating_sub(start)
}

/// A spot that marks a token, of which nothing is said yet.
pub fn spot_at(alloc: Global, text: &[u8], token: &Token) -> Spot {
    Spot {
        column: column_of(text, token),
        width: bytes_of(text, token).len(),
        what: Page::new(alloc),
        hint: Page::new(alloc),
    }
}

/// A spot that marks the beginning of a line, of which nothing is said yet.
pub fn line_spot(alloc: Global) -> Spot {
    Spot {
        column: 0,
        width: 1,
        what: Page::new(alloc),
        hint: Page::new(alloc),
    }
}

/// A spot that marks the first token of a statement, or else the beginning of its line, of which nothing is said yet.
pub fn first_spot(alloc: Global, text: &[u8], statement: &[Token]) -> Spot {
    match statement.first() {
        Some(token) => spot_at(alloc, text, token),
        None => line_spot(alloc),
    }
}

/// A spot that marks the word with which the statement of this number, from 0, begins, of which nothing is said yet.
pub fn statement_spot(alloc: Global, text: &[u8], tokens: &[Token], number: u64) -> Spot {
    match statement_at(text, tokens, number) {
        Some(statement) => first_spot(alloc, text, statement.tokens),
        None => line_spot(alloc),
    }
}
