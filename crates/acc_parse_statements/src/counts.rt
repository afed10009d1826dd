//! How many statements end in words.
ghost use Rattle.std.specs.Prelude.{◌≡◌};
ghost use Rattle.acc_parse_statements.specs.Ends.{is_end, ends};

use acc_lex::words::{Sign, Word};

/// Whether a word is the end of a statement.
fn is_end(word: &Word) -> bool
    ensures { result ≡ is_end word.now }
{
    match word {
        Word::Sign(Sign::End) => true,
        _ => false,
    }
}

/// How many of the words are the end of a statement.
#[tactic(auto, unfolding(crate::specs::Ends::ends))]
pub fn ends(words: &[Word]) -> usize
    ensures { result ≡ ends words.now }
{
    words.iter().filter(|word| is_end(word)).count()
}
