//! The words of a text, by its tokens.
ghost use Rattle.std.specs.Prelude.{◌≡◌, ◌++◌, List, MatchResult, IfOk, OnOk};
ghost use Rattle.acc_grammar.specs.Readers.{AllIn};
ghost use Rattle.acc_grammar.specs.Runs.{EachPasses};
ghost use Rattle.acc_lex.specs.ByteKinds.{is_digit};
ghost use Rattle.acc_lex.specs.declared.words.Word.{Word as WordValue};
ghost use Rattle.acc_lex.specs.LineWords.{number_of};
ghost use Rattle.acc_lex.specs.Words.{CanSpell};
ghost use Rattle.acc_lex.specs.Slices.{mark_sign, IsOf, IsSlice, word_of, ends, told, words_of};
ghost use Rattle.acc_lex.specs.Texts.{IsLexed, Answers};

use crate::lexers::{LexError, lex};
use crate::signs::{keyword, sign_among};
use crate::tokens::{Kind, Token};
use crate::words::{Sign, Word};
use acc_base::sequences::Seq;
use std::alloc::{AllocError, Global};

/// The value of digits; one past the last of 64 bits counts as that.
fn saturated(digits: &[u8]) -> u64
    requires { EachPasses is_digit digits.now }
    ensures { result ≡ number_of digits.now }
{
    let mut value: u64 = 0;
    for b in digits {
        value = value
            .saturating_mul(10)
            .saturating_add(u64::from(*b - b'0'));
    }
    value
}

/// Each mark, and its sign.
const MARKS: [(&[u8], Sign); 12] = [
    (b"[", Sign::Open),
    (b"]", Sign::Close),
    (b",", Sign::Comma),
    (b".", Sign::Dot),
    (b":", Sign::Colon),
    (b"=", Sign::Equal),
    (b"<=", Sign::AtMost),
    (b">=", Sign::AtLeast),
    (b"=>", Sign::Implies),
    (b"+", Sign::Plus),
    (b"-", Sign::Minus),
    (b"*", Sign::Times),
];

/// The sign of a mark; what is none counts as an end.
fn mark_sign(mark: &[u8]) -> Sign
    ensures { result ≡ mark_sign mark.now }
{
    sign_among(&MARKS, mark).unwrap_or(Sign::End)
}

/// The word of the bytes of a token.
fn word_of(alloc: Global, kind: Kind, bytes: &[u8]) -> Result<Word, AllocError>
    requires { IsOf kind bytes.now }
    ensures { IfOk result (λ w. w ≡ word_of kind bytes.now) }
{
    match kind {
        Kind::Word => match keyword(bytes) {
            Some(sign) => Ok(Word::Sign(sign)),
            None => Ok(Word::Name(Seq::from_vec(Vec::from_slice(alloc, bytes)?))),
        },
        Kind::Number => Ok(Word::Number(saturated(bytes))),
        Kind::Mark => Ok(Word::Sign(mark_sign(bytes))),
        Kind::End => Ok(Word::Sign(Sign::End)),
    }
}

/// Whether a token ends a statement.
fn ends(kind: Kind) -> bool
    ensures { result ≡ ends kind }
{
    match kind {
        Kind::End => true,
        _ => false,
    }
}

/// Adds the word of the bytes of a token; the end of an empty statement is none.
fn add_word(
    alloc: Global,
    words: &mut Seq<Word>,
    empty: bool,
    kind: Kind,
    bytes: &[u8],
) -> Result<(), AllocError>
    requires { IsOf kind bytes.now }
    ensures { OnOk result (words.new ≡ words.old ++ told empty kind bytes.now) }
{
    if !(empty && ends(kind)) {
        words.push(word_of(alloc, kind, bytes)?)?;
    }
    Ok(())
}

/// The words of a text's tokens; the end of an empty statement is none.
fn words_of(alloc: Global, text: &[u8], tokens: &[Token]) -> Result<Seq<Word>, AllocError>
    requires { AllIn (IsSlice text.now) tokens.now }
    ensures { IfOk result (λ words. words ≡ words_of text.now tokens.now) }
{
    let mut words = Seq::new(alloc);
    let mut empty = true;
    for token in tokens {
        let bytes = &text[token.from as usize..token.to as usize];
        add_word(alloc, &mut words, empty, token.kind, bytes)?;
        empty = ends(token.kind);
    }
    Ok(words)
}

/// The words of a design's text. The cost is linear in its bytes, and only those of names are copied.
pub fn words(alloc: Global, text: &[u8]) -> Result<Seq<Word>, LexError>
    // The words are the text's, or it has none and the line is that of the first byte with which no text goes on.
    ensures exact { Answers text.now result }
    // Whatever words a text has are answered, unless memory runs out.
    ensures only { (words : List WordValue) → IsLexed text.now words
        → MatchResult result (λ found. found ≡ words) (λ e. e ≡ LexError.Memory) }
    ensures spelled { IfOk result (AllIn CanSpell) }
{
    let tokens = lex(alloc, text)?;
    Ok(words_of(alloc, text, tokens.as_slice())?)
}
