//! The word of a line that passes a limit, and how much is there.
use crate::names::forall_names;
use crate::numbers::value_of;
use crate::statements::{
    bytes_of, first_spot, head_of, is_one_of, line_spot, split_statement, spot_at,
};
use acc_base::bounds::{
    LARGEST_NUMBER, LONGEST_NAME, MOST_ACTIONS, MOST_ALWAYS, MOST_CLAUSES, MOST_ENTRIES,
    MOST_HINTS, MOST_KEY_PARTS, MOST_PATHS, MOST_POINTS, MOST_READS, MOST_TABLES, MOST_TYPES,
    PAST_SMALL_NUMBERS,
};
use acc_base::limits::Limit;
use acc_diagnose_words::{Spot, push_limit, push_limit_hint};
use acc_lex::{Kind, Token, language};
use std::alloc::Global;

/// Whether a statement that begins with this word can pass the limit by being one too many.
fn is_counted(limit: Limit, head: &[u8]) -> bool {
    match limit {
        Limit::Tables => is_one_of(&language::TABLES, head),
        Limit::Types => head == language::TYPE,
        Limit::Points => head == language::POINT,
        Limit::Clauses => head != language::ALWAYS && is_one_of(&language::CLAUSES, head),
        Limit::AlwaysClauses => head == language::ALWAYS,
        Limit::Paths => head == language::PATH,
        Limit::Actions => is_one_of(&language::ACTIONS, head),
        Limit::Reads => is_one_of(&language::READS, head),
        Limit::EntriesAndHints => head == language::ENTRY || head == language::HINT,
        Limit::KeyWidth | Limit::Columns | Limit::Locals | Limit::Variables => false,
        Limit::GuardRelations | Limit::NameLength | Limit::NumberSize => false,
    }
}

/// How many statements that begin with this word may be counted together; none where the limit isn't on a number of statements.
fn most_of(limit: Limit, head: &[u8]) -> Option<usize> {
    match limit {
        Limit::Tables => Some(MOST_TABLES),
        Limit::Types => Some(MOST_TYPES),
        Limit::Points => Some(MOST_POINTS),
        Limit::Clauses => Some(MOST_CLAUSES),
        Limit::AlwaysClauses => Some(MOST_ALWAYS),
        Limit::Paths => Some(MOST_PATHS),
        Limit::Actions => Some(MOST_ACTIONS),
        Limit::Reads => Some(MOST_READS),
        Limit::EntriesAndHints if head == language::HINT => Some(MOST_HINTS),
        Limit::EntriesAndHints => Some(MOST_ENTRIES),
        Limit::KeyWidth | Limit::Columns | Limit::Locals | Limit::Variables => None,
        Limit::GuardRelations | Limit::NameLength | Limit::NumberSize => None,
    }
}

/// Whether so many statements that begin with this word are too many.
fn are_too_many(limit: Limit, head: &[u8], count: u64) -> bool {
    match most_of(limit, head) {
        Some(most) => count > most as u64,
        None => false,
    }
}

/// Whether a statement that begins with this word can pass the limit by what it is made of.
fn is_measured(limit: Limit, head: &[u8]) -> bool {
    match limit {
        Limit::KeyWidth | Limit::Columns => is_one_of(&language::TABLES, head),
        Limit::Locals => head == language::TYPE || head == language::LOCAL,
        Limit::Variables => is_one_of(&language::CLAUSES, head),
        Limit::GuardRelations => { head == language::PATH || is_one_of(&language::CLAUSES, head) }
        Limit::NameLength | Limit::NumberSize => true,
        Limit::Tables | Limit::Types | Limit::Points | Limit::Clauses => false,
        Limit::AlwaysClauses | Limit::Paths | Limit::Actions | Limit::Reads => false,
        Limit::EntriesAndHints => false,
    }
}

/// Whether what is counted begins anew with a statement that begins with this word.
fn begins_anew(limit: Limit, head: &[u8]) -> bool {
    match limit {
        Limit::Points => head == language::TYPE,
        Limit::Clauses => head == language::TYPE || head == language::POINT,
        Limit::Paths | Limit::Reads => head == language::NEXT || head == language::UNDO,
        Limit::Actions => head == language::PATH,
        Limit::Tables | Limit::Types | Limit::AlwaysClauses | Limit::EntriesAndHints => false,
        Limit::KeyWidth | Limit::Columns | Limit::Locals | Limit::Variables => false,
        Limit::GuardRelations | Limit::NameLength | Limit::NumberSize => false,
    }
}

/// Whether two statements that begin with these words are counted together.
fn are_alike(limit: Limit, head: &[u8], other: &[u8]) -> bool {
    match limit {
        Limit::Clauses | Limit::EntriesAndHints => head == other,
        Limit::Tables | Limit::Types | Limit::Points | Limit::AlwaysClauses => {
            is_counted(limit, other)
        }
        Limit::Paths | Limit::Actions | Limit::Reads => is_counted(limit, other),
        Limit::KeyWidth | Limit::Columns | Limit::Locals | Limit::Variables => false,
        Limit::GuardRelations | Limit::NameLength | Limit::NumberSize => false,
    }
}

/// How many statements are counted together with the one that begins with a token.
fn count_with(text: &[u8], tokens: &[Token], limit: Limit, first: &Token) -> u64 {
    let head = bytes_of(text, first);
    let mut rest = tokens;
    let mut count: u64 = 0;
    let mut is_past = false;
    while let Some((statement, behind)) = split_statement(rest) {
        let other = head_of(text, statement);
        if begins_anew(limit, other) && is_past {
            return count;
        } else if begins_anew(limit, other) {
            count = 0;
        }
        if are_alike(limit, head, other) {
            count = count.saturating_add(1);
        }
        is_past = is_past || is_first(statement, first);
        rest = behind;
    }
    count
}

/// Whether a statement begins with a token.
fn is_first(statement: &[Token], first: &Token) -> bool {
    match statement.first() {
        Some(token) => token.from == first.from,
        None => false,
    }
}

/// Whether a number behind this word is larger than it may be.
fn is_large(before: &[u8], number: u64) -> bool {
    let is_small = before == language::LIMIT || before == language::REFUSE;
    number > LARGEST_NUMBER || (is_small && number >= PAST_SMALL_NUMBERS)
}

/// Whether a token alone passes the limit.
fn is_too_large(text: &[u8], limit: Limit, before: &[u8], token: &Token) -> bool {
    let word = bytes_of(text, token);
    let is_number = token.kind == Kind::Number;
    match limit {
        Limit::KeyWidth => is_number && !(1..=MOST_KEY_PARTS as u64).contains(&value_of(word)),
        Limit::NameLength => token.kind == Kind::Word && word.len() > LONGEST_NAME,
        Limit::NumberSize => is_number && is_large(before, value_of(word)),
        Limit::Tables | Limit::Types | Limit::Points | Limit::Clauses => false,
        Limit::AlwaysClauses | Limit::Paths | Limit::Actions | Limit::Reads => false,
        Limit::EntriesAndHints | Limit::Columns | Limit::Locals => false,
        Limit::Variables | Limit::GuardRelations => false,
    }
}

/// The first token of a line that passes the limit by itself.
fn large_token<'a>(text: &[u8], tokens: &'a [Token], line: u64, limit: Limit) -> Option<&'a Token> {
    let mut before: &[u8] = &[];
    for token in tokens {
        if token.line == line && is_too_large(text, limit, before, token) {
            return Some(token);
        }
        before = bytes_of(text, token);
    }
    None
}

/// The first token of the first statement of a line that is one too many.
fn one_too_many<'a>(
    text: &[u8],
    tokens: &'a [Token],
    line: u64,
    limit: Limit,
) -> Option<&'a Token> {
    let mut rest = tokens;
    let mut last: &[u8] = &[];
    let mut count: u64 = 0;
    while let Some((statement, behind)) = split_statement(rest) {
        let head = head_of(text, statement);
        let is_other = is_counted(limit, head) && !are_alike(limit, last, head);
        if begins_anew(limit, head) || is_other {
            count = 0;
        }
        if is_counted(limit, head) {
            count = count.saturating_add(1);
            last = head;
        }
        if are_too_many(limit, head, count)
            && is_counted(limit, head)
            && line_of(statement) == line
        {
            return statement.first();
        }
        rest = behind;
    }
    None
}

/// The line on which a statement begins; 0 where it is empty.
fn line_of(statement: &[Token]) -> u64 {
    match statement.first() {
        Some(token) => token.line,
        None => 0,
    }
}

/// The last statement of a line that may pass the limit by what it is made of, and how many parameters the type has that stands
/// last before it.
fn measured<'a>(
    text: &[u8],
    tokens: &'a [Token],
    line: u64,
    limit: Limit,
) -> Option<(&'a [Token], usize)> {
    let mut rest = tokens;
    let mut parameters = 0;
    let mut found = None;
    while let Some((statement, behind)) = split_statement(rest) {
        let head = head_of(text, statement);
        if head == language::TYPE {
            parameters = statement.len().saturating_sub(2);
        }
        if line_of(statement) == line && is_measured(limit, head) {
            found = Some((statement, parameters));
        }
        rest = behind;
    }
    found
}

/// How many relations stand in a statement, or before its `=>`, where it has one.
fn relations_in(text: &[u8], statement: &[Token]) -> u64 {
    let mut count: u64 = 0;
    for token in statement {
        let word = bytes_of(text, token);
        if word == language::IMPLIES {
            return count;
        }
        if is_one_of(&language::RELATIONS, word) {
            count = count.saturating_add(1);
        }
    }
    count
}

/// How many locals a type has by a statement: its own parameters, or those before it and what it names itself.
fn locals_in(text: &[u8], statement: &[Token], parameters: usize) -> usize {
    if head_of(text, statement) == language::TYPE {
        parameters
    } else {
        parameters.saturating_add(statement.len().saturating_sub(1))
    }
}

/// How much a statement has of what the limit bounds, where that is counted.
fn measure_of(text: &[u8], limit: Limit, statement: &[Token], parameters: usize) -> Option<u64> {
    match limit {
        Limit::Columns => Some(statement.len().saturating_sub(3) as u64),
        Limit::Locals => Some(locals_in(text, statement, parameters) as u64),
        Limit::Variables => Some(forall_names(text, statement).len() as u64),
        Limit::GuardRelations => Some(relations_in(text, statement)),
        Limit::Tables | Limit::Types | Limit::Points | Limit::Clauses => None,
        Limit::AlwaysClauses | Limit::Paths | Limit::Actions | Limit::Reads => None,
        Limit::EntriesAndHints | Limit::KeyWidth | Limit::NameLength | Limit::NumberSize => None,
    }
}

/// Puts how much is there.
fn push_count(spot: &mut Spot, count: u64) {
    spot.what.push(b"; there are ");
    spot.what.push_number(count)
}

/// Puts how long a word is, where the limit is on its length.
fn push_size(spot: &mut Spot, limit: Limit, len: usize) {
    match limit {
        Limit::NameLength => {
            spot.what.push(b"; this one has ");
            spot.what.push_number(len as u64);
        }
        Limit::Tables | Limit::Types | Limit::Points | Limit::Clauses => {}
        Limit::AlwaysClauses | Limit::Paths | Limit::Actions | Limit::Reads => {}
        Limit::EntriesAndHints | Limit::KeyWidth | Limit::Columns | Limit::Locals => {}
        Limit::Variables | Limit::GuardRelations | Limit::NumberSize => {}
    }
}

/// The spot of a word that passes the limit by itself, with its length where that is too large.
fn large_spot(alloc: Global, text: &[u8], limit: Limit, token: &Token) -> Spot {
    let mut spot = spot_at(alloc, text, token);
    push_limit(&mut spot.what, limit);
    push_size(&mut spot, limit, bytes_of(text, token).len());
    spot
}

/// The spot of a statement that is one too many.
fn counted_spot(alloc: Global, text: &[u8], tokens: &[Token], limit: Limit, token: &Token) -> Spot {
    let mut spot = spot_at(alloc, text, token);
    push_limit(&mut spot.what, limit);
    push_count(&mut spot, count_with(text, tokens, limit, token));
    spot
}

/// The spot of a statement that passes the limit by what it is made of, or else of its line.
fn measured_spot(alloc: Global, text: &[u8], tokens: &[Token], line: u64, limit: Limit) -> Spot {
    let Some((statement, parameters)) = measured(text, tokens, line, limit) else {
        let mut spot = line_spot(alloc);
        push_limit(&mut spot.what, limit);
        return spot;
    };
    let mut spot = first_spot(alloc, text, statement);
    push_limit(&mut spot.what, limit);
    if let Some(count) = measure_of(text, limit, statement, parameters) {
        push_count(&mut spot, count);
    }
    spot
}

/// The spot on a line that passes the limit, without the limit's number.
fn unnumbered_spot(alloc: Global, text: &[u8], tokens: &[Token], line: u64, limit: Limit) -> Spot {
    match large_token(text, tokens, line, limit) {
        Some(token) => large_spot(alloc, text, limit, token),
        None => match one_too_many(text, tokens, line, limit) {
            Some(token) => counted_spot(alloc, text, tokens, limit, token),
            None => measured_spot(alloc, text, tokens, line, limit),
        },
    }
}

/// The spot on a line that passes a limit: the word, or the beginning of the statement, and how much is there.
pub fn limit_spot(alloc: Global, text: &[u8], tokens: &[Token], line: u64, limit: Limit) -> Spot {
    let mut spot = unnumbered_spot(alloc, text, tokens, line, limit);
    spot.what.push(b" (limit ");
    spot.what.push_number(limit.number());
    spot.what.push(b")");
    push_limit_hint(&mut spot.hint, limit);
    spot
}
