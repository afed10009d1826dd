//! The assertion and the path of an obligation, where they stand in the text of the design.
use crate::certificates::Marked;
use crate::parts::{
    action_from, always_from, first_of, held_from, path_from, point_from, promise_from, side_word,
    step_from, table_from, variant_from,
};
use crate::rules::{Subject, push_rule_lack, subject_of};
use acc_base::designs::{At, Design};
use acc_base::sequents::{Origin, Rule};
use acc_base::steps::Target;
use acc_diagnose_spot::spot_at;
use acc_diagnose_words::push_quoted;
use acc_lex::{Token, language};
use acc_page::{Page, push_at};
use std::alloc::Global;

/// Where the path of an obligation leads.
fn target_of(d: &Design, origin: &Origin) -> Option<Target> {
    let step = d.step(origin.at?, origin.side)?;
    let number = origin.path.checked_sub(1)?;
    let path = step.paths.as_slice().get(number as usize)?;
    Some(path.target)
}

/// The tokens from the clause on that the target of an obligation's path promises.
fn promised_from<'a>(
    text: &[u8],
    tokens: &'a [Token],
    d: &Design,
    origin: &Origin,
    number: u32,
) -> Option<&'a [Token]> {
    let ty = origin.at?.ty;
    match target_of(d, origin)? {
        Target::Point(point) => held_from(text, tokens, At { ty, point }, number),
        Target::Commit => promise_from(text, tokens, ty, language::ENSURES, number),
        Target::Undone => promise_from(text, tokens, ty, language::REPAIRS, number),
        Target::Refuse(_) => None,
    }
}

/// The tokens from the variant of a point on, or from the point where it has none.
fn counted_from<'a>(text: &[u8], tokens: &'a [Token], at: At) -> Option<&'a [Token]> {
    match variant_from(text, tokens, at) {
        Some(found) => Some(found),
        None => point_from(text, tokens, at),
    }
}

/// The tokens from the path of an obligation on, or from its step where no path is named.
fn taken_from<'a>(text: &[u8], tokens: &'a [Token], origin: &Origin) -> Option<&'a [Token]> {
    let at = origin.at?;
    match (origin.path.checked_sub(1), subject_of(origin.rule)) {
        (Some(number), _) => path_from(text, tokens, at, origin.side, number),
        (None, Subject::Number) => step_from(text, tokens, at, origin.side),
        (None, Subject::Stated | Subject::Action | Subject::Variant) => None,
    }
}

/// The tokens from the assertion on that an obligation is about.
fn asserted_from<'a>(
    text: &[u8],
    tokens: &'a [Token],
    d: &Design,
    origin: &Origin,
) -> Option<&'a [Token]> {
    let number = origin.clause.checked_sub(1)?;
    match origin.rule {
        Rule::Begins => held_from(text, tokens, origin.at?, number),
        Rule::Promises => promised_from(text, tokens, d, origin, number),
        Rule::Always | Rule::Empty => always_from(text, tokens, number),
        Rule::Spares => held_from(text, tokens, origin.held?, number),
        Rule::There => action_from(text, taken_from(text, tokens, origin)?, number),
        Rule::Ranges => None,
        Rule::Variants => counted_from(text, tokens, origin.at?),
        Rule::Clears => table_from(text, tokens, number),
    }
}

/// The bytes of the first statement.
fn statement_in<'a>(text: &'a [u8], tokens: &[Token]) -> &'a [u8] {
    let statement = first_of(tokens);
    let ([first, ..], [.., last]) = (statement, statement) else {
        return &[];
    };
    let to = (last.to as usize).min(text.len());
    &text[(first.from as usize).min(to)..to]
}

/// The mark of the first statement, of which nothing is said yet.
fn statement_mark(alloc: Global, text: &[u8], tokens: &[Token]) -> Option<Marked> {
    let first = tokens.first()?;
    let mut spot = spot_at(alloc, text, first);
    spot.width = statement_in(text, tokens).len();
    Some(Marked {
        line: first.line,
        spot,
    })
}

/// The path of an obligation, in words; nothing where it has none.
pub fn push_path(out: &mut Page, d: &Design, origin: &Origin) {
    let Some(at) = origin.at else {
        return;
    };
    match (origin.path, subject_of(origin.rule)) {
        (0, Subject::Number) => {}
        (0, Subject::Stated | Subject::Action | Subject::Variant) => return,
        (number, _) => {
            out.push(b" path ");
            out.push_number(number);
            out.push(b" of")
        }
    }
    out.push(b" the step `");
    out.push(side_word(origin.side));
    out.push(b"` of `");
    push_at(out, d, at);
    out.push(b"`")
}

/// The mark of the clause with this number, from 1, that is asserted at a point, or at all times where none is named; nothing is said of it
/// yet.
pub fn clause_mark(
    alloc: Global,
    text: &[u8],
    tokens: &[Token],
    held: Option<At>,
    clause: u32,
) -> Option<Marked> {
    let number = clause.checked_sub(1)?;
    let found = match held {
        Some(at) => held_from(text, tokens, at, number)?,
        None => always_from(text, tokens, number)?,
    };
    statement_mark(alloc, text, found)
}

/// What an obligation is about: an assertion as it stands in the text, a variant, or a number, as it is spelled.
fn push_subject(out: &mut Page, d: &Design, origin: &Origin, statement: &[u8], number: &[u8]) {
    match (subject_of(origin.rule), origin.at) {
        (Subject::Variant, Some(at)) => {
            out.push(b"the variant of `");
            push_at(out, d, at);
            out.push(b"`")
        }
        (Subject::Number, _) => push_quoted(out, number),
        (Subject::Variant, None) => push_quoted(out, statement),
        (Subject::Stated | Subject::Action, _) => push_quoted(out, statement),
    }
}

/// What isn't shown, in words.
fn push_lack(out: &mut Page, d: &Design, origin: &Origin, statement: &[u8], number: &[u8]) {
    push_subject(out, d, origin, statement, number);
    push_rule_lack(out, origin.rule, origin.clause);
    push_path(out, d, origin);
    out.push(b" (rule S");
    out.push_number(origin.rule.number());
    out.push(b")")
}

/// The mark of the assertion that an obligation is about, or else of its path, and what isn't shown. `number` is the number, as it is
/// spelled, that an obligation on ranges is about.
pub fn asserted_mark(
    alloc: Global,
    text: &[u8],
    tokens: &[Token],
    d: &Design,
    origin: &Origin,
    number: &[u8],
) -> Option<Marked> {
    let found = match asserted_from(text, tokens, d, origin) {
        Some(found) => found,
        None => match taken_from(text, tokens, origin) {
            Some(found) => found,
            None => return None,
        },
    };
    let Some(mut mark) = statement_mark(alloc, text, found) else {
        return None;
    };
    push_lack(
        &mut mark.spot.what,
        d,
        origin,
        statement_in(text, found),
        number,
    );
    Some(mark)
}

/// The mark of the path of an obligation that speaks of an assertion elsewhere; none of others.
pub fn path_mark(alloc: Global, text: &[u8], tokens: &[Token], origin: &Origin) -> Option<Marked> {
    match subject_of(origin.rule) {
        Subject::Stated | Subject::Variant => {}
        Subject::Action | Subject::Number => return None,
    }
    let Some(found) = taken_from(text, tokens, origin) else {
        return None;
    };
    let Some(mut mark) = statement_mark(alloc, text, found) else {
        return None;
    };
    mark.spot.what.push(b"this is the path");
    Some(mark)
}
