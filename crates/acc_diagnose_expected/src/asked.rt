//! What a usual mistake has at its place.
use crate::around::Neighbours;
use crate::signs::{
    is_clause, is_head, is_of_part, is_of_path, is_of_point, is_of_type, is_path_end, is_read,
};
use crate::wanted::Alternatives;
use acc_diagnose_spot::is_one_of;
use acc_lex::{Sign, keyword, language};

/// Words of the language that are alike.
#[derive(Clone, Copy)]
pub enum WordGroup {
    All,
    /// Those that begin a statement.
    Heads,
    Reads,
    /// Actions, and ends of paths.
    OfPaths,
    /// What a type has before its points.
    OfTypes,
    OfPoints,
    Parts,
}

/// Where a usual mistake stands.
#[derive(Clone, Copy)]
pub enum MistakePlace {
    Anywhere,
    /// At the head of a statement.
    Head,
    /// At the head of a statement behind one that ends a path.
    HeadBehindPath,
    /// Within a statement.
    Within,
    /// Within a statement that begins with this word.
    In(&'static [u8]),
    /// Within a statement that begins with a read.
    InRead,
    /// Within a statement that is a clause.
    InClause,
    /// Within a statement, right behind this word.
    Behind(&'static [u8]),
    /// Within a statement, right behind a name.
    BehindName,
}

/// What stands at the place of a usual mistake.
#[derive(Clone, Copy)]
pub enum Misplaced {
    Any,
    /// This word.
    Is(&'static [u8]),
    /// Bytes that begin so.
    Front(&'static [u8]),
    Name,
    Number,
    /// `<=`, `>=` or `=`
    Relation,
    /// A word of the language.
    Of(WordGroup),
}

/// What could stand at the place of a usual mistake.
#[derive(Clone, Copy)]
pub enum Could {
    /// Whatever could.
    Free,
    /// This one, and maybe others.
    Takes(Sign),
    TakesOnly(Sign),
    TakesName,
    TakesNumber,
    /// One more name, or the end of the statement.
    TakesNameOrEnd,
}

/// Whether a word of the language is of a group.
fn is_of(group: WordGroup, sign: Sign) -> bool {
    match group {
        WordGroup::All => true,
        WordGroup::Heads => is_head(sign),
        WordGroup::Reads => is_read(sign),
        WordGroup::OfPaths => is_of_path(sign),
        WordGroup::OfTypes => is_of_type(sign),
        WordGroup::OfPoints => is_of_point(sign),
        WordGroup::Parts => is_of_part(sign),
    }
}

/// Whether a word stands between the two values of a relation.
fn is_relation(word: &[u8]) -> bool {
    is_one_of(&language::RELATIONS, word)
}

/// Whether a word is a name.
fn is_name(word: &[u8]) -> bool {
    match word {
        [first, ..] => first.is_ascii_alphabetic() && keyword(word).is_none(),
        [] => false,
    }
}

/// Whether a word is a number.
fn is_number(word: &[u8]) -> bool {
    match word {
        [first, ..] => first.is_ascii_digit(),
        [] => false,
    }
}

/// Whether a mistake with this place stands here.
pub fn is_there(place: MistakePlace, around: Neighbours) -> bool {
    let is_head = around.statement.is_empty();
    match place {
        MistakePlace::Anywhere => true,
        MistakePlace::Head => is_head,
        MistakePlace::HeadBehindPath => is_head && keyword(around.before).is_some_and(is_path_end),
        MistakePlace::Within => !is_head,
        MistakePlace::In(word) => around.statement == word,
        MistakePlace::InRead => keyword(around.statement).is_some_and(is_read),
        MistakePlace::InClause => keyword(around.statement).is_some_and(is_clause),
        MistakePlace::Behind(word) => !is_head && around.before == word,
        MistakePlace::BehindName => !is_head && is_name(around.before),
    }
}

/// Whether a word, which may be none, is what stands at a mistake's place.
pub fn fits(asked: Misplaced, word: &[u8]) -> bool {
    match asked {
        Misplaced::Any => true,
        Misplaced::Is(known) => word == known,
        Misplaced::Front(known) => word.starts_with(known),
        Misplaced::Name => is_name(word),
        Misplaced::Number => is_number(word),
        Misplaced::Relation => is_relation(word),
        Misplaced::Of(group) => keyword(word).is_some_and(|sign| is_of(group, sign)),
    }
}

/// Whether what could stand at a place is what could at a mistake's.
pub fn could_be(could: Could, wanted: &Alternatives) -> bool {
    match could {
        Could::Free => true,
        Could::Takes(sign) => wanted.has(sign),
        Could::TakesOnly(sign) => wanted.has(sign) && wanted.count() == 1,
        Could::TakesName => wanted.name,
        Could::TakesNumber => wanted.number,
        Could::TakesNameOrEnd => wanted.name && wanted.has(Sign::End),
    }
}
