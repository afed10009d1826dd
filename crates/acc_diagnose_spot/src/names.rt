//! The name of a statement that isn't defined, or is defined a second time.
use crate::roles::{NameFault, NameRole, push_fault};
use crate::scopes::{
    is_table, local_named, locals, named_in, parameters, point_named, table_named, tokens_from,
    type_named,
};
use crate::statements::{
    Statement, bytes_of, first_spot, head_of, is_name, line_spot, spot_at, statement_at, word_at,
};
use acc_diagnose_words::Spot;
use acc_lex::{Kind, Token, language};
use std::alloc::Global;

/// A fault of a name that isn't defined.
fn undefined<'a>(token: &'a Token, role: NameRole<'a>) -> Option<NameFault<'a>> {
    Some(NameFault {
        token,
        role,
        first: None,
    })
}

/// The fault of a token that stands behind another definition of the same name, if that is another token.
fn again<'a>(
    token: Option<&'a Token>,
    first: Option<&'a Token>,
    role: NameRole<'a>,
) -> Option<NameFault<'a>> {
    let token = token?;
    let first = first?;
    if first.from == token.from {
        return None;
    }
    Some(NameFault {
        token,
        role,
        first: Some(first),
    })
}

/// The first of some names that stands among them before, or is found among others.
fn repeated<'a>(
    text: &'a [u8],
    names: &'a [Token],
    others: &'a [Token],
    role: NameRole<'a>,
) -> Option<NameFault<'a>> {
    for (i, token) in names.iter().enumerate() {
        let name = bytes_of(text, token);
        let first = match named_in(text, others, name) {
            Some(first) => Some(first),
            None => named_in(text, &names[..i], name),
        };
        if is_name(text, token) && first.is_some() {
            return again(Some(token), first, role);
        }
    }
    None
}

/// The fault of a table's statement.
fn table_fault<'a>(text: &'a [u8], tokens: &'a [Token], of: &'a [Token]) -> Option<NameFault<'a>> {
    let name = word_at(text, of, 1);
    let first = match table_named(text, tokens, name) {
        Some(statement) => statement.get(1),
        None => None,
    };
    match again(of.get(1), first, NameRole::Table) {
        Some(fault) => Some(fault),
        None => repeated(text, tokens_from(of, 3), &[], NameRole::Column(name)),
    }
}

/// The fault of a type's statement.
fn type_fault<'a>(text: &'a [u8], tokens: &'a [Token], of: &'a [Token]) -> Option<NameFault<'a>> {
    let first = match type_named(text, tokens, word_at(text, of, 1)) {
        Some(of_type) => of_type.get(1),
        None => None,
    };
    match again(of.get(1), first, NameRole::Type) {
        Some(fault) => Some(fault),
        None => repeated(text, tokens_from(of, 2), &[], NameRole::Variable),
    }
}

/// The names of a `forall`, where a clause begins with one.
pub fn forall_names<'a>(text: &[u8], statement: &'a [Token]) -> &'a [Token] {
    if word_at(text, statement, 1) != language::FORALL {
        return &[];
    }
    let behind = tokens_from(statement, 2);
    let count = behind
        .iter()
        .take_while(|token| is_name(text, token))
        .count();
    &behind[..count.min(behind.len())]
}

/// The fault of a name that is used as a column.
fn column_fault<'a>(
    text: &'a [u8],
    tokens: &'a [Token],
    table: &'a [u8],
    token: &'a Token,
) -> Option<NameFault<'a>> {
    let of = table_named(text, tokens, table)?;
    match named_in(text, tokens_from(of, 3), bytes_of(text, token)) {
        Some(_) => None,
        None => undefined(token, NameRole::Column(table)),
    }
}

/// The fault of a name that is used as a variable, beside the names of a `forall`.
fn variable_fault<'a>(
    text: &'a [u8],
    of_type: &'a [Token],
    own: &'a [Token],
    token: &'a Token,
) -> Option<NameFault<'a>> {
    let name = bytes_of(text, token);
    if named_in(text, own, name).is_some() || local_named(text, of_type, name).is_some() {
        return None;
    }
    let role = if of_type.is_empty() {
        NameRole::Bound
    } else {
        NameRole::Variable
    };
    undefined(token, role)
}

/// Whether a token is this mark.
fn is_mark(text: &[u8], token: Option<&Token>, mark: &[u8]) -> bool {
    match token {
        Some(token) => token.kind == Kind::Mark && bytes_of(text, token) == mark,
        None => false,
    }
}

/// What the names of a statement are looked up in.
#[derive(Clone, Copy)]
struct NameScope<'a> {
    text: &'a [u8],
    tokens: &'a [Token],
    of_type: &'a [Token],
    /// The names of the `forall`.
    own: &'a [Token],
}

/// The fault of a name of a statement that is used, between its neighbours; `table` is the last one before.
fn use_fault<'a>(
    around: NameScope<'a>,
    table: &'a [u8],
    before: Option<&Token>,
    token: &'a Token,
    next: Option<&Token>,
) -> Option<NameFault<'a>> {
    let text = around.text;
    if is_mark(text, next, language::OPEN) {
        match table_named(text, around.tokens, bytes_of(text, token)) {
            Some(_) => None,
            None => undefined(token, NameRole::Table),
        }
    } else if is_mark(text, before, language::DOT) {
        column_fault(text, around.tokens, table, token)
    } else {
        variable_fault(text, around.of_type, around.own, token)
    }
}

/// The first name of a statement that is used and isn't defined.
fn first_undefined<'a>(around: NameScope<'a>, used: &'a [Token]) -> Option<NameFault<'a>> {
    let mut table: &[u8] = &[];
    let mut before: Option<&Token> = None;
    for (i, token) in used.iter().enumerate() {
        let next = used.get(i + 1);
        if is_name(around.text, token) {
            if let Some(fault) = use_fault(around, table, before, token, next) {
                return Some(fault);
            }
            if is_mark(around.text, next, language::OPEN) {
                table = bytes_of(around.text, token);
            }
        }
        before = Some(token);
    }
    None
}

/// The fault of a clause, or of another statement with values.
fn value_fault<'a>(
    text: &'a [u8],
    tokens: &'a [Token],
    of: Statement<'a>,
) -> Option<NameFault<'a>> {
    let own = forall_names(text, of.tokens);
    let around = NameScope {
        text,
        tokens,
        of_type: of.of_type,
        own,
    };
    match repeated(text, own, parameters(of.of_type), NameRole::Variable) {
        Some(fault) => Some(fault),
        None => match repeated(text, own, locals(text, of.of_type), NameRole::Variable) {
            Some(fault) => Some(fault),
            None => first_undefined(around, tokens_from(of.tokens, 1)),
        },
    }
}

/// The fault of a point that is named by its type and its own name, at these tokens of a statement.
fn point_name_fault<'a>(
    text: &'a [u8],
    tokens: &'a [Token],
    of: &'a [Token],
    at: usize,
) -> Option<NameFault<'a>> {
    let [type_name, _, point, ..] = tokens_from(of, at) else {
        return None;
    };
    let name = bytes_of(text, type_name);
    match type_named(text, tokens, name) {
        None => undefined(type_name, NameRole::Type),
        Some(of_type) => match point_named(text, of_type, bytes_of(text, point)) {
            Some(_) => None,
            None => undefined(point, NameRole::Point(name)),
        },
    }
}

/// The first variable of an entry's pairs that isn't a local of its type: those before `=` are the holder's, the others the step's.
fn pairs_fault<'a>(text: &'a [u8], tokens: &'a [Token], of: &'a [Token]) -> Option<NameFault<'a>> {
    let held = type_named(text, tokens, word_at(text, of, 1)).unwrap_or(&[]);
    let step = type_named(text, tokens, word_at(text, of, 5)).unwrap_or(&[]);
    let pairs = tokens_from(of, 9);
    for (i, token) in pairs.iter().enumerate() {
        let of_type = if is_mark(text, pairs.get(i + 1), language::EQUAL) {
            held
        } else {
            step
        };
        let name = bytes_of(text, token);
        if is_name(text, token) && local_named(text, of_type, name).is_none() {
            return undefined(token, NameRole::Variable);
        }
    }
    None
}

/// The fault of an entry.
fn entry_fault<'a>(text: &'a [u8], tokens: &'a [Token], of: &'a [Token]) -> Option<NameFault<'a>> {
    match point_name_fault(text, tokens, of, 1) {
        Some(fault) => Some(fault),
        None => match point_name_fault(text, tokens, of, 5) {
            Some(fault) => Some(fault),
            None => pairs_fault(text, tokens, of),
        },
    }
}

/// The fault of a hint.
fn hint_fault<'a>(text: &'a [u8], tokens: &'a [Token], of: &'a [Token]) -> Option<NameFault<'a>> {
    match point_name_fault(text, tokens, of, 1) {
        Some(fault) => Some(fault),
        None => {
            let of_type = type_named(text, tokens, word_at(text, of, 1)).unwrap_or(&[]);
            let around = NameScope {
                text,
                tokens,
                of_type,
                own: &[],
            };
            first_undefined(around, tokens_from(of, 5))
        }
    }
}

/// The fault of a target that names a point.
fn goto_fault<'a>(text: &'a [u8], of: Statement<'a>) -> Option<NameFault<'a>> {
    let token = of.tokens.get(1)?;
    match point_named(text, of.of_type, bytes_of(text, token)) {
        Some(_) => None,
        None => undefined(token, NameRole::Point(word_at(text, of.of_type, 1))),
    }
}

/// The fault of a point's statement.
fn point_fault<'a>(text: &'a [u8], of: Statement<'a>) -> Option<NameFault<'a>> {
    let token = of.tokens.get(1)?;
    let first = point_named(text, of.of_type, bytes_of(text, token));
    again(
        Some(token),
        first,
        NameRole::Point(word_at(text, of.of_type, 1)),
    )
}

/// The fault of a statement, where one is found.
fn statement_fault<'a>(
    text: &'a [u8],
    tokens: &'a [Token],
    of: Statement<'a>,
) -> Option<NameFault<'a>> {
    let head = head_of(text, of.tokens);
    if is_table(text, of.tokens) {
        table_fault(text, tokens, of.tokens)
    } else if head == language::TYPE {
        type_fault(text, tokens, of.tokens)
    } else if head == language::LOCAL {
        let names = tokens_from(of.tokens, 1);
        repeated(text, names, parameters(of.of_type), NameRole::Variable)
    } else if head == language::POINT {
        point_fault(text, of)
    } else if head == language::GOTO {
        goto_fault(text, of)
    } else if head == language::ENTRY {
        entry_fault(text, tokens, of.tokens)
    } else if head == language::HINT {
        hint_fault(text, tokens, of.tokens)
    } else {
        value_fault(text, tokens, of)
    }
}

/// Says that a name of a statement is wrong.
fn fault_spot(alloc: Global, text: &[u8], tokens: &[Token], of: Statement) -> Spot {
    match statement_fault(text, tokens, of) {
        Some(fault) => {
            let mut spot = spot_at(alloc, text, fault.token);
            push_fault(&mut spot, fault, bytes_of(text, fault.token));
            spot
        }
        None => {
            let mut spot = first_spot(alloc, text, of.tokens);
            spot.what
                .push(b"a name isn't defined, or is defined a second time");
            spot
        }
    }
}

/// The spot of the name of a statement, by its number from 0, that isn't defined or is defined a second time. Each name is looked up
/// by going over the text.
pub fn name_spot(alloc: Global, text: &[u8], tokens: &[Token], number: u64) -> Spot {
    match statement_at(text, tokens, number) {
        Some(of) => fault_spot(alloc, text, tokens, of),
        None => line_spot(alloc),
    }
}
