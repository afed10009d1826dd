//! The statements of a design's parts, by the tokens of its text.
use acc_base::designs::{At, Side};
use acc_diagnose_spot::{bytes_of, is_one_of};
use acc_lex::{Kind, Token, language};

/// What begins a part behind the points of a type.
const BEHIND_POINTS: [&[u8]; 3] = [language::TYPE, language::ENTRY, language::HINT];

/// What begins a part behind a step.
const BEHIND_STEP: [&[u8]; 5] = [
    language::UNDO,
    language::POINT,
    language::TYPE,
    language::ENTRY,
    language::HINT,
];

/// The tokens from the statement on that begins with one of some words and has this number among these, from 0; none where a
/// statement with one of the other words comes before it.
fn from_statement<'a>(
    text: &[u8],
    tokens: &'a [Token],
    heads: &[&[u8]],
    number: u32,
    ends: &[&[u8]],
) -> Option<&'a [Token]> {
    let mut is_head = true;
    let mut left = number;
    for (i, token) in tokens.iter().enumerate() {
        let word = bytes_of(text, token);
        if is_head && is_one_of(ends, word) {
            return None;
        }
        if is_head && is_one_of(heads, word) {
            if left == 0 {
                return Some(&tokens[i..]);
            }
            left -= 1;
        }
        is_head = token.kind == Kind::End;
    }
    None
}

/// The first statement, without its end.
pub fn first_of(tokens: &[Token]) -> &[Token] {
    match tokens.iter().position(|token| token.kind == Kind::End) {
        Some(end) => &tokens[..end],
        None => tokens,
    }
}

/// The tokens behind the first statement.
fn behind(tokens: &[Token]) -> Option<&[Token]> {
    let end = tokens.iter().position(|token| token.kind == Kind::End)?;
    Some(&tokens[end + 1..])
}

/// The tokens from a type on.
pub fn type_from<'a>(text: &[u8], tokens: &'a [Token], ty: u32) -> Option<&'a [Token]> {
    from_statement(
        text,
        tokens,
        &[language::TYPE],
        ty,
        &[language::ENTRY, language::HINT],
    )
}

/// The tokens from a point on.
pub fn point_from<'a>(text: &[u8], tokens: &'a [Token], at: At) -> Option<&'a [Token]> {
    let of = behind(type_from(text, tokens, at.ty)?)?;
    from_statement(
        text,
        of,
        &[language::POINT],
        at.point,
        BEHIND_POINTS.as_slice(),
    )
}

/// The tokens from the assertion of a point on that has this number, from 0.
pub fn held_from<'a>(text: &[u8], tokens: &'a [Token], at: At, number: u32) -> Option<&'a [Token]> {
    let of = behind(point_from(text, tokens, at)?)?;
    from_statement(text, of, &[language::HOLDS], number, &[language::NEXT])
}

/// The tokens from the variant of a point on.
pub fn variant_from<'a>(text: &[u8], tokens: &'a [Token], at: At) -> Option<&'a [Token]> {
    let of = behind(point_from(text, tokens, at)?)?;
    from_statement(text, of, &[language::VARIANT], 0, &[language::NEXT])
}

/// The tokens from what a type promises on that has this number, from 0: `ensures`, or `repairs`.
pub fn promise_from<'a>(
    text: &[u8],
    tokens: &'a [Token],
    ty: u32,
    word: &[u8],
    number: u32,
) -> Option<&'a [Token]> {
    let of = behind(type_from(text, tokens, ty)?)?;
    from_statement(text, of, &[word], number, &[language::POINT])
}

/// The tokens from what holds always on that has this number, from 0.
pub fn always_from<'a>(text: &[u8], tokens: &'a [Token], number: u32) -> Option<&'a [Token]> {
    from_statement(text, tokens, &[language::ALWAYS], number, &[language::TYPE])
}

/// The word of a side.
pub fn side_word(side: Side) -> &'static [u8] {
    match side {
        Side::Next => language::NEXT,
        Side::Undo => language::UNDO,
    }
}

/// The tokens from the word of a step on.
pub fn step_from<'a>(text: &[u8], tokens: &'a [Token], at: At, side: Side) -> Option<&'a [Token]> {
    let of = behind(point_from(text, tokens, at)?)?;
    from_statement(
        text,
        of,
        &[side_word(side)],
        0,
        &[language::POINT, language::TYPE],
    )
}

/// The tokens from a path of a step on that has this number, from 0.
pub fn path_from<'a>(
    text: &[u8],
    tokens: &'a [Token],
    at: At,
    side: Side,
    number: u32,
) -> Option<&'a [Token]> {
    let of = behind(step_from(text, tokens, at, side)?)?;
    from_statement(text, of, &[language::PATH], number, BEHIND_STEP.as_slice())
}

/// The tokens from an action of the path at the front on that has this number, from 0.
pub fn action_from<'a>(text: &[u8], of_path: &'a [Token], number: u32) -> Option<&'a [Token]> {
    from_statement(
        text,
        behind(of_path)?,
        &language::ACTIONS,
        number,
        &language::TARGETS,
    )
}

/// The tokens from the table with this number, from 0, on.
pub fn table_from<'a>(text: &[u8], tokens: &'a [Token], number: u32) -> Option<&'a [Token]> {
    from_statement(text, tokens, &language::TABLES, number, &[language::TYPE])
}
