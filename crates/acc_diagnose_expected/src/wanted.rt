//! What could stand at a place among words: each word with which some design goes on there.
use crate::signs::{COUNT, SIGNS, push_sign};
use acc_base::sequences::Seq;
use acc_lex::words::{Sign, Word};
use acc_page::Page;
use acc_parse_designs::{SyntaxError, syntax};
use std::alloc::{AllocError, Global};

/// How many words a text may have before a place at which it is told what could stand there: the words are read once for each
/// word of the language.
const MOST_WORDS: usize = 1 << 16;

/// What could stand at a place; nothing where that isn't told.
#[derive(Drop)]
pub struct Alternatives {
    pub signs: Vec<Sign>,
    pub name: bool,
    pub number: bool,
    /// Whether the design may end there.
    pub end: bool,
}

impl Alternatives {
    /// It isn't told what could stand there.
    pub fn nothing(alloc: Global) -> Self {
        Alternatives {
            signs: Vec::new(alloc),
            name: false,
            number: false,
            end: false,
        }
    }

    /// How many things could stand there.
    pub fn count(&self) -> u64 {
        let others = u64::from(self.name) + u64::from(self.number) + u64::from(self.end);
        (self.signs.len() as u64).saturating_add(others)
    }

    /// Whether it isn't told what could stand there.
    pub fn is_empty(&self) -> bool {
        self.count() == 0
    }

    pub fn has(&self, sign: Sign) -> bool {
        self.signs.iter().any(|found| *found == sign)
    }

    /// Writes what could stand there, with commas and an `or`.
    pub fn push(&self, out: &mut Page) {
        let mut left = self.count();
        if self.name {
            push_item(out, b"a name", &mut left);
        }
        if self.number {
            push_item(out, b"a number", &mut left);
        }
        for sign in &self.signs {
            push_sign(out, *sign);
            push_parting(out, &mut left);
        }
        if self.end {
            push_item(out, b"the end of the design", &mut left);
        }
    }
}

/// Writes an item of a list, with what parts it from the next, where there is one.
fn push_item(out: &mut Page, item: &[u8], left: &mut u64) {
    out.push(item);
    push_parting(out, left)
}

/// Writes what parts an item of a list from the next, where there is one.
fn push_parting(out: &mut Page, left: &mut u64) {
    *left = left.saturating_sub(1);
    match *left {
        0 => {}
        1 => out.push(b" or "),
        _ => out.push(b", "),
    }
}

/// Whether some design goes on with all of the words, of which so many are good.
fn goes_on(alloc: Global, words: &[Word], good: usize) -> Result<bool, AllocError> {
    match syntax(alloc, words) {
        Ok(_) => Ok(true),
        Err(SyntaxError::At(place)) => Ok(place > good),
        Err(SyntaxError::Memory) => Err(AllocError),
    }
}

/// Whether some design goes on with the words and then this one.
fn takes(alloc: Global, words: &mut Seq<Word>, word: Word) -> Result<bool, AllocError> {
    let good = words.len();
    words.push(word)?;
    let is_taken = goes_on(alloc, words.as_slice(), good)?;
    words.truncate(good);
    Ok(is_taken)
}

/// Whether the words are a whole design.
fn are_whole(alloc: Global, words: &[Word]) -> Result<bool, AllocError> {
    match syntax(alloc, words) {
        Ok(_) => Ok(true),
        Err(SyntaxError::At(_)) => Ok(false),
        Err(SyntaxError::Memory) => Err(AllocError),
    }
}

/// A word that is a name.
fn some_name(alloc: Global) -> Result<Word, AllocError> {
    Ok(Word::Name(Seq::from_vec(Vec::from_slice(alloc, b"x")?)))
}

/// Puts the signs that could stand behind words, which are the front of a design's, behind `signs`.
fn push_signs(
    alloc: Global,
    words: &mut Seq<Word>,
    signs: &mut Vec<Sign>,
) -> Result<(), AllocError> {
    let all: [Sign; COUNT] = SIGNS;
    for sign in all {
        if takes(alloc, words, Word::Sign(sign))? {
            signs.push(sign)?;
        }
    }
    Ok(())
}

/// What could stand behind words that are the front of a design's, where they aren't too many.
pub fn could_stand(alloc: Global, words: &mut Seq<Word>) -> Result<Alternatives, AllocError> {
    if words.len() > MOST_WORDS {
        return Ok(Alternatives::nothing(alloc));
    }
    let mut signs = Vec::new(alloc);
    push_signs(alloc, words, &mut signs)?;
    let name = some_name(alloc)?;
    let name = takes(alloc, words, name)?;
    let number = takes(alloc, words, Word::Number(1))?;
    let end = are_whole(alloc, words.as_slice())?;
    Ok(Alternatives {
        signs,
        name,
        number,
        end,
    })
}
