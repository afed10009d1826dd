//! The usual mistakes, each by where it stands, and how it is mended.
use crate::around::Neighbours;
use crate::asked::Could::{Free, Takes, TakesName, TakesNameOrEnd, TakesNumber, TakesOnly};
use crate::asked::Misplaced::{Any, Is, Name, Number, Of, Relation};
use crate::asked::MistakePlace::{
    Behind, BehindName, Head, HeadBehindPath, In, InClause, InRead, Within,
};
use crate::asked::{Could, Misplaced, MistakePlace, WordGroup, could_be, fits, is_there};
use crate::hints;
use crate::wanted::Alternatives;
use acc_diagnose_words::push_quoted;
use acc_lex::Sign;
use acc_lex::language::{
    ADD, CLOSE, COMMA, COUNT, DIV, DOT, ENTRY, EQUAL, GET, GOTO, HAS, HINT, LIMIT, LOCAL, MINUS,
    MUL, ONESELF, OPEN, PATH, PRIVATE, PUT, REFUSE, SET, SUM, TABLE, TIMES, TYPE,
};
use acc_page::Page;

/// A usual mistake: where it stands, what could stand there, and what stands there; and how it is mended.
pub type Mistake = (MistakePlace, Could, Misplaced, &'static [u8]);

/// How many usual mistakes there are.
const ROWS: usize = 89;

/// The usual mistakes; where several fit, the first is told.
const MISTAKES: [Mistake; ROWS] = [
    (Head, Free, Is(MINUS), hints::COMMENT),
    (Head, Free, Is(b"if"), hints::NO_IF),
    (Head, Free, Is(b"else"), hints::NO_ELSE),
    (Head, Free, Is(b"insert"), hints::INSERT),
    (Head, Free, Is(b"update"), hints::UPDATE),
    (Head, Free, Is(b"delete"), hints::DELETE),
    (Head, Free, Is(b"select"), hints::SELECT),
    (Head, Free, Is(b"return"), hints::RETURN),
    (Head, Free, Is(b"abort"), hints::GIVE_UP),
    (Head, Free, Is(b"rollback"), hints::GIVE_UP),
    (Head, Takes(Sign::Let), Name, hints::NO_LET),
    (Head, Takes(Sign::Put), Name, hints::LET_BEFORE),
    (Head, Free, Name, hints::NO_HEAD),
    (Head, Free, Number, hints::NO_HEAD),
    (
        HeadBehindPath,
        Takes(Sign::Path),
        Of(WordGroup::OfPaths),
        hints::PATH_ENDED,
    ),
    (
        Head,
        Takes(Sign::Path),
        Of(WordGroup::OfPaths),
        hints::BEHIND_PATH,
    ),
    (
        Head,
        Takes(Sign::Put),
        Of(WordGroup::Reads),
        hints::READS_FIRST,
    ),
    (Head, Takes(Sign::Goto), Any, hints::PATH_ENDS),
    (Head, Takes(Sign::Undo), Any, hints::TWO_STEPS),
    (Head, Takes(Sign::Limit), Any, hints::TYPE_LIMIT),
    (
        Head,
        Takes(Sign::Next),
        Of(WordGroup::Reads),
        hints::NEXT_FIRST,
    ),
    (
        Head,
        Takes(Sign::Next),
        Of(WordGroup::OfPaths),
        hints::NEXT_FIRST,
    ),
    (Head, Takes(Sign::Next), Is(PATH), hints::NEXT_FIRST),
    (Head, Free, Of(WordGroup::OfTypes), hints::TYPE_ORDER),
    (Head, Free, Of(WordGroup::OfPoints), hints::POINT_ORDER),
    (Head, Free, Of(WordGroup::Parts), hints::PARTS_ORDER),
    (Head, Takes(Sign::Point), Any, hints::POINT_FIRST),
    // Words of other languages within a statement, and statements with a number or an equality too many.
    (Within, Free, Is(b"or"), hints::NO_OR),
    (InClause, Free, Is(b"and"), hints::ONE_RELATION),
    (Within, Free, Is(b"and"), hints::NO_AND),
    (Within, Free, Is(b"then"), hints::NO_THEN),
    (In(REFUSE), TakesNumber, Any, hints::REFUSE),
    (In(LIMIT), TakesNumber, Any, hints::TYPE_LIMIT),
    (Behind(MINUS), Free, Is(MINUS), hints::TWO_SIGNS),
    (Within, TakesNumber, Is(MINUS), hints::NO_SIGN),
    (In(TABLE), TakesNumber, Any, hints::COMPONENTS),
    (In(PRIVATE), TakesNumber, Any, hints::COMPONENTS),
    (In(SET), Free, Is(EQUAL), hints::NO_EQUAL),
    (In(ADD), Free, Is(EQUAL), hints::NO_EQUAL),
    (In(PUT), Free, Is(EQUAL), hints::NO_EQUAL),
    (Behind(EQUAL), Free, Is(EQUAL), hints::ONE_EQUAL),
    // The next statement, a read within a value, a word of the language as a name.
    (
        Within,
        TakesNameOrEnd,
        Of(WordGroup::Heads),
        hints::NAME_OR_HEAD,
    ),
    (
        Within,
        Takes(Sign::End),
        Of(WordGroup::Heads),
        hints::PARTED,
    ),
    (Within, Takes(Sign::Minus), Is(HAS), hints::NO_READ),
    (Within, Takes(Sign::Minus), Is(COUNT), hints::NO_READ),
    (Within, Takes(Sign::Minus), Is(SUM), hints::NO_READ),
    (
        Behind(COMMA),
        Free,
        Of(WordGroup::Heads),
        hints::NO_SEMICOLON,
    ),
    (
        Within,
        Takes(Sign::Minus),
        Of(WordGroup::Reads),
        hints::NO_READ,
    ),
    (In(ENTRY), Takes(Sign::Next), Any, hints::STEP),
    (In(HINT), Takes(Sign::Next), Any, hints::STEP),
    (In(ENTRY), Takes(Sign::By), Any, hints::ENTRY),
    (In(ENTRY), Takes(Sign::Dot), Any, hints::POINT),
    (In(HINT), Takes(Sign::Dot), Any, hints::POINT),
    (In(ENTRY), Takes(Sign::Colon), Any, hints::PAIRS),
    (In(ENTRY), Takes(Sign::Comma), Any, hints::PAIRS),
    (In(ENTRY), Takes(Sign::Equal), Any, hints::PAIR),
    (In(ENTRY), TakesName, Number, hints::PAIR),
    (Within, Takes(Sign::Colon), Any, hints::FORALL),
    (Within, Free, Is(ONESELF), hints::OWN),
    (Within, TakesName, Of(WordGroup::All), hints::NO_NAME),
    // Statements of names alone.
    (In(TYPE), TakesNameOrEnd, Any, hints::PARAMETERS),
    (Within, TakesNameOrEnd, Is(COMMA), hints::NO_COMMA),
    (In(LOCAL), TakesNameOrEnd, Any, hints::LOCALS),
    (In(GOTO), Free, Any, hints::GOTO),
    (In(MUL), Free, Any, hints::MUL),
    (In(DIV), Free, Any, hints::DIV),
    // Products, rows and their columns.
    (Within, Free, Is(TIMES), hints::PRODUCT),
    (Behind(TIMES), Free, Any, hints::FACTOR),
    (InRead, Takes(Sign::Equal), Any, hints::ASSIGNED),
    (In(GET), Takes(Sign::Dot), Any, hints::GET),
    (In(SUM), Takes(Sign::Dot), Any, hints::SUM),
    (In(SET), Takes(Sign::Dot), Any, hints::SET),
    (In(ADD), Takes(Sign::Dot), Any, hints::SET),
    (Within, Takes(Sign::Dot), Any, hints::COLUMN),
    (In(HAS), TakesOnly(Sign::End), Is(DOT), hints::HAS),
    (BehindName, TakesOnly(Sign::Open), Any, hints::KEY),
    (BehindName, Takes(Sign::Open), Is(DOT), hints::KEY),
    (BehindName, Takes(Sign::Plus), Is(OPEN), hints::NO_ROW),
    (BehindName, Takes(Sign::Plus), Is(DOT), hints::NO_ROW),
    (Behind(OPEN), Free, Is(CLOSE), hints::EMPTY_KEY),
    (Within, Takes(Sign::Close), Any, hints::KEY_ENDS),
    // Values, relations and clauses.
    (In(PUT), Takes(Sign::Comma), Any, hints::VALUES),
    (Within, Takes(Sign::AtMost), Any, hints::RELATION),
    (In(PATH), Free, Relation, hints::CHAIN),
    (InClause, Free, Relation, hints::CHAIN),
    (In(PATH), Takes(Sign::Comma), Any, hints::NO_AND),
    (InClause, Takes(Sign::Implies), Any, hints::ONE_RELATION),
    (InClause, Takes(Sign::End), Any, hints::ONE_RELATION),
    (Within, Takes(Sign::End), Any, hints::PARTED),
];

/// How a mistake is mended, where it is one of these: the first of them that stands there so; else nothing.
pub fn hint_among(
    mistakes: &[Mistake],
    around: Neighbours,
    wanted: &Alternatives,
) -> &'static [u8] {
    for (place, could, asked, hint) in mistakes {
        if is_there(*place, around) && fits(*asked, around.found) && could_be(*could, wanted) {
            return *hint;
        }
    }
    b""
}

/// Writes a hint, with the words of the text that it names.
pub fn push_hint(out: &mut Page, hint: &[u8], around: Neighbours) {
    for byte in hint {
        match *byte {
            hints::FOUND => push_quoted(out, around.found),
            hints::BEFORE => push_quoted(out, around.before),
            other => out.push(&[other]),
        }
    }
}

/// Writes how a mistake is mended, where it is a usual one.
pub fn push_mending(out: &mut Page, around: Neighbours, wanted: &Alternatives) {
    push_hint(out, hint_among(&MISTAKES, around, wanted), around)
}
