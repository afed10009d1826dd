//! Texts that are cut into lines, and lines that are cut into words.
ghost use Rattle.std.specs.Prelude.{◌≡◌, ◌≢◌, ℕ, ◌==◌, not, List, [], ◌∷◌, MatchBool, MatchOption, option_copied};
ghost use Rattle.std.specs.List.{prefix_len};
ghost use Rattle.acc_script.specs.Pieces.{pieces, pieces_left, words_in, words_of, is_skipped};

use std::marker::Model;

/// How many bytes stand before the first byte `at`, or all where there is none.
fn piece_len(text: &[u8], at: u8) -> usize
    ensures { result ≡ prefix_len (λ b. not (b == at)) text.now }
{
    text.iter().take_while(|b| **b != at).count()
}

/// The first piece of a text that is cut at `at`, and what stands behind that byte, if there is one.
fn cut(text: &[u8], at: u8) -> (&[u8], Option<&[u8]>)
    ensures { pieces at text.now ≡ result.0.now ∷ pieces_left at (option_copied result.1) }
{
    let (piece, behind) = text.split_at(piece_len(text, at));
    match behind.split_first() {
        Some((_, rest)) => (piece, Some(rest)),
        None => (piece, None),
    }
}

/// What is left of a text that is cut at a byte: contracts see the pieces.
#[derive(Drop)]
pub struct Pieces<'a> {
    at: u8,
    rest: Option<&'a [u8]>,
}

impl<'a> Model for Pieces<'a> {
    ghost use Rattle.std.specs.Prelude.{ℕ, List, option_copied};
    ghost use Rattle.acc_script.specs.Pieces.{pieces_left};

    ghost Value = { List (List ℕ) };

    ghost view = { λ p. pieces_left p.at (option_copied p.rest) };
}

impl<'a> Pieces<'a> {
    pub fn new(text: &'a [u8], at: u8) -> Self
        ensures { result ≡ pieces at text.now }
    {
        Pieces {
            at,
            rest: Some(text),
        }
    }

    pub fn next(&mut self) -> Option<&'a [u8]>
        ensures { MatchOption result ((self.old ≡ []) × (self.new ≡ [])) (λ piece. self.old ≡ piece.now ∷ self.new) }
    {
        let (piece, rest) = cut(self.rest?, self.at);
        self.rest = rest;
        Some(piece)
    }
}

/// What is left of a line: contracts see the words.
#[derive(Drop)]
pub struct Words<'a> {
    pieces: Pieces<'a>,
}

impl<'a> Model for Words<'a> {
    ghost use Rattle.std.specs.Prelude.{ℕ, List};
    ghost use Rattle.acc_script.specs.Pieces.{words_in};

    ghost Value = { List (List ℕ) };

    ghost view = { λ w. words_in w.pieces };
}

impl<'a> Words<'a> {
    pub fn new(line: &'a [u8]) -> Self
        ensures { result ≡ words_of line.now }
    {
        Words {
            pieces: Pieces::new(line, b' '),
        }
    }

    pub fn next(&mut self) -> Option<&'a [u8]>
        ensures { MatchOption result ((self.old ≡ []) × (self.new ≡ [])) (λ word. self.old ≡ word.now ∷ self.new) }
    {
        while let Some(piece) = self.pieces.next() {
            if !piece.is_empty() {
                return Some(piece);
            }
        }
        None
    }

    /// The next word, which stays.
    pub fn first(&self) -> Option<&'a [u8]>
        ensures { MatchOption result (self.now ≡ []) (λ word. (left : List (List ℕ)) × (self.now ≡ word.now ∷ left)) }
    {
        let mut ahead = Words {
            pieces: Pieces {
                at: self.pieces.at,
                rest: self.pieces.rest,
            },
        };
        ahead.next()
    }

    /// Skips the next word where it is this one.
    pub fn skip(&mut self, word: &[u8]) -> bool
        ensures { MatchBool result (self.old ≡ word.now ∷ self.new)
            ((self.new ≡ self.old) × ((left : List (List ℕ)) → self.old ≢ word.now ∷ left)) }
    {
        match self.first() {
            Some(next) if next == word => {
                self.next();
                true
            }
            _ => false,
        }
    }
}

/// Whether a line says nothing: it begins with `#`, or has no word.
pub fn is_skipped(line: &[u8]) -> bool
    ensures { result ≡ is_skipped line.now }
{
    matches!(line.first(), Some(b'#')) || Words::new(line).next().is_none()
}
