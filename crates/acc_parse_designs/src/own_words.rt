//! Where `self` stands among the words of a design.
ghost use Rattle.std.specs.Prelude.{◌≡◌, ◌<◌, ◌≤◌, ◌+◌, length, take, [], ◌∷◌};
ghost use Rattle.acc_parse_designs.specs.OwnWords.{OwnInTypes};
ghost use Rattle.acc_parse_syntax.specs.WordReaders.{comes};

use acc_lex::words::{Sign, Word};

/// Whether the word is this fixed one.
fn is_sign(word: &Word, sign: Sign) -> bool
    ensures { result ≡ comes sign (word.now ∷ []) }
{
    match word {
        Word::Sign(s) => *s == sign,
        _ => false,
    }
}

/// How many words come before the first `self` that stands outside the types: all of them, where none does.
pub(crate) fn words_before_stray_self(words: &[Word]) -> usize
    ensures within { result ≤ length words.now }
    ensures own { OwnInTypes (take result words.now) }
    ensures stray { result < length words.now → ¬ OwnInTypes (take (result + 1) words.now) }
{
    let mut types_began = false;
    let mut types_ended = false;
    for (i, word) in words.iter().enumerate() {
        let in_types = types_began && !types_ended;
        if is_sign(word, Sign::Oneself) && !in_types {
            return i;
        }
        types_began |= is_sign(word, Sign::Type);
        types_ended |= is_sign(word, Sign::Entry) | is_sign(word, Sign::Hint);
    }
    words.len()
}
