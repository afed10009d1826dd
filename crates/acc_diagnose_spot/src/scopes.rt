//! Where names are defined, by the tokens of a text.
use crate::statements::{bytes_of, head_of, is_name, is_one_of, split_statement, word_at};
use acc_lex::{Token, language};

/// Whether a statement defines a table.
pub fn is_table(text: &[u8], statement: &[Token]) -> bool {
    is_one_of(&language::TABLES, head_of(text, statement))
}

/// The first of some tokens that is this name.
pub fn named_in<'a>(text: &[u8], tokens: &'a [Token], name: &[u8]) -> Option<&'a Token> {
    tokens.iter().find(|token| is_name(text, token) && bytes_of(text, token) == name)
}

/// The tokens of a statement from this number on.
pub fn tokens_from(statement: &[Token], number: usize) -> &[Token] {
    &statement[number.min(statement.len())..]
}

/// The statement of the first table of a name.
pub fn table_named<'a>(text: &[u8], tokens: &'a [Token], name: &[u8]) -> Option<&'a [Token]> {
    let mut rest = tokens;
    while let Some((statement, behind)) = split_statement(rest) {
        if is_table(text, statement) && word_at(text, statement, 1) == name {
            return Some(statement);
        }
        rest = behind;
    }
    None
}

/// The tokens from the first type of a name on.
pub fn type_named<'a>(text: &[u8], tokens: &'a [Token], name: &[u8]) -> Option<&'a [Token]> {
    let mut rest = tokens;
    while let Some((statement, behind)) = split_statement(rest) {
        if head_of(text, statement) == language::TYPE && word_at(text, statement, 1) == name {
            return Some(rest);
        }
        rest = behind;
    }
    None
}

/// Whether a statement stands behind a type.
fn ends_type(text: &[u8], statement: &[Token]) -> bool {
    let head = head_of(text, statement);
    head == language::TYPE || head == language::ENTRY || head == language::HINT
}

/// The first statement with this word at its head within the type at the front, of which the second word is the name, where
/// one is asked for.
fn member_named<'a>(
    text: &[u8],
    of_type: &'a [Token],
    head: &[u8],
    name: Option<&[u8]>,
) -> Option<&'a [Token]> {
    let (_, mut rest) = split_statement(of_type)?;
    while let Some((statement, behind)) = split_statement(rest) {
        if ends_type(text, statement) {
            return None;
        }
        let is_named = match name {
            Some(name) => word_at(text, statement, 1) == name,
            None => true,
        };
        if is_named && head_of(text, statement) == head {
            return Some(statement);
        }
        rest = behind;
    }
    None
}

/// The parameters of the type at the front.
pub fn parameters(of_type: &[Token]) -> &[Token] {
    match split_statement(of_type) {
        Some((statement, _)) => tokens_from(statement, 2),
        None => &[],
    }
}

/// What `local` names in the type at the front.
pub fn locals<'a>(text: &[u8], of_type: &'a [Token]) -> &'a [Token] {
    match member_named(text, of_type, language::LOCAL, None) {
        Some(statement) => tokens_from(statement, 1),
        None => &[],
    }
}

/// Where a local of the type at the front is defined.
pub fn local_named<'a>(text: &[u8], of_type: &'a [Token], name: &[u8]) -> Option<&'a Token> {
    match named_in(text, parameters(of_type), name) {
        Some(token) => Some(token),
        None => named_in(text, locals(text, of_type), name),
    }
}

/// Where a point of the type at the front is defined.
pub fn point_named<'a>(text: &[u8], of_type: &'a [Token], name: &[u8]) -> Option<&'a Token> {
    member_named(text, of_type, language::POINT, Some(name))?.get(1)
}
