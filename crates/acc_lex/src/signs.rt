//! The words and the marks that the grammar fixes.
ghost use Rattle.std.specs.Prelude.{◌≡◌};
ghost use Rattle.acc_lex.specs.Keywords.{sign_in, spellings, keyword_of};
ghost use Rattle.acc_lex.specs.Signs.{IsSpelling};

use crate::language;
use crate::words::Sign;

/// Each word that the grammar fixes, and its sign.
const KEYWORDS: [(&[u8], Sign); 38] = [
    (language::TABLE, Sign::Table),
    (language::PRIVATE, Sign::Private),
    (language::ALWAYS, Sign::Always),
    (language::TYPE, Sign::Type),
    (language::LIMIT, Sign::Limit),
    (language::RETURNS, Sign::Returns),
    (language::LOCAL, Sign::Local),
    (language::ENSURES, Sign::Ensures),
    (language::REPAIRS, Sign::Repairs),
    (language::POINT, Sign::Point),
    (language::VARIANT, Sign::Variant),
    (language::HOLDS, Sign::Holds),
    (language::NEXT, Sign::Next),
    (language::UNDO, Sign::Undo),
    (language::LET, Sign::Let),
    (language::GET, Sign::Get),
    (language::HAS, Sign::Has),
    (language::COUNT, Sign::Count),
    (language::SUM, Sign::Sum),
    (language::LEAST, Sign::Least),
    (language::GREATEST, Sign::Greatest),
    (language::TAKE, Sign::Take),
    (language::MUL, Sign::Mul),
    (language::DIV, Sign::Div),
    (language::PATH, Sign::Path),
    (language::PUT, Sign::Put),
    (language::DEL, Sign::Del),
    (language::SET, Sign::Set),
    (language::ADD, Sign::Add),
    (language::GOTO, Sign::Goto),
    (language::COMMIT, Sign::Commit),
    (language::UNDONE, Sign::Undone),
    (language::REFUSE, Sign::Refuse),
    (language::ENTRY, Sign::Entry),
    (language::BY, Sign::By),
    (language::HINT, Sign::Hint),
    (language::FORALL, Sign::Forall),
    (language::ONESELF, Sign::Oneself),
];

/// The sign of the first of some spellings that is this one.
pub(crate) fn sign_among(signs: &[(&[u8], Sign)], spelling: &[u8]) -> Option<Sign>
    ensures { result ≡ sign_in (spellings signs.now) spelling.now }
{
    for (known, sign) in signs {
        if spelling == *known {
            return Some(*sign);
        }
    }
    None
}

/// The sign that a word of the text is, if it is no name.
#[tactic(auto, unfolding(crate::specs::Keywords::keyword_of))]
pub fn keyword(word: &[u8]) -> Option<Sign>
    ensures { result ≡ keyword_of word.now }
{
    sign_among(&KEYWORDS, word)
}

/// The word or the mark that a sign is written as; the end of a statement is written as none.
#[tactic(auto, unfolding(crate::specs::Keywords::keyword_of))]
pub fn spelling(sign: Sign) -> Option<&'static [u8]>
    ensures { IsSpelling sign result }
{
    match sign {
        Sign::Table => Some(language::TABLE),
        Sign::Private => Some(language::PRIVATE),
        Sign::Always => Some(language::ALWAYS),
        Sign::Type => Some(language::TYPE),
        Sign::Limit => Some(language::LIMIT),
        Sign::Returns => Some(language::RETURNS),
        Sign::Local => Some(language::LOCAL),
        Sign::Ensures => Some(language::ENSURES),
        Sign::Repairs => Some(language::REPAIRS),
        Sign::Point => Some(language::POINT),
        Sign::Variant => Some(language::VARIANT),
        Sign::Holds => Some(language::HOLDS),
        Sign::Next => Some(language::NEXT),
        Sign::Undo => Some(language::UNDO),
        Sign::Let => Some(language::LET),
        Sign::Get => Some(language::GET),
        Sign::Has => Some(language::HAS),
        Sign::Count => Some(language::COUNT),
        Sign::Sum => Some(language::SUM),
        Sign::Least => Some(language::LEAST),
        Sign::Greatest => Some(language::GREATEST),
        Sign::Take => Some(language::TAKE),
        Sign::Mul => Some(language::MUL),
        Sign::Div => Some(language::DIV),
        Sign::Path => Some(language::PATH),
        Sign::Put => Some(language::PUT),
        Sign::Del => Some(language::DEL),
        Sign::Set => Some(language::SET),
        Sign::Add => Some(language::ADD),
        Sign::Goto => Some(language::GOTO),
        Sign::Commit => Some(language::COMMIT),
        Sign::Undone => Some(language::UNDONE),
        Sign::Refuse => Some(language::REFUSE),
        Sign::Entry => Some(language::ENTRY),
        Sign::By => Some(language::BY),
        Sign::Hint => Some(language::HINT),
        Sign::Forall => Some(language::FORALL),
        Sign::Oneself => Some(language::ONESELF),
        Sign::Open => Some(language::OPEN),
        Sign::Close => Some(language::CLOSE),
        Sign::Comma => Some(language::COMMA),
        Sign::Dot => Some(language::DOT),
        Sign::Colon => Some(language::COLON),
        Sign::Equal => Some(language::EQUAL),
        Sign::AtMost => Some(language::AT_MOST),
        Sign::AtLeast => Some(language::AT_LEAST),
        Sign::Implies => Some(language::IMPLIES),
        Sign::Plus => Some(language::PLUS),
        Sign::Minus => Some(language::MINUS),
        Sign::Times => Some(language::TIMES),
        Sign::End => None,
    }
}
