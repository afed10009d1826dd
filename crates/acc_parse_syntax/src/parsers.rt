//! A parser of words: what comes next, and reading one word.
ghost use Rattle.std.specs.Prelude.{◌≡◌, false, Ok, IsTrue};
ghost use Rattle.acc_grammar.specs.Readers.{many};
ghost use Rattle.acc_grammar.specs.Answers.{Gives};
ghost use Rattle.acc_parse_syntax.specs.WordReaders.{comes, is_name, is_number, is_word, sign_at, name_at, number_at, ended_at, end_at};

use acc_base::sequences::{Seq, Text, copied};
use acc_grammar::faults::Fault;
use acc_lex::words::{Sign, Word};
use std::alloc::Global;

/// The words that are left. Where a method answers that the words are no text, they begin with the first that doesn't fit.
#[derive(Drop)]
pub struct Parser<'a> {
    pub alloc: Global,
    pub words: &'a [Word],
}

impl Parser<'_> {
    pub fn comes(&self, sign: Sign) -> bool
        ensures { result ≡ comes sign self.now.words.now }
    {
        match self.words.first() {
            Some(Word::Sign(s)) => *s == sign,
            _ => false,
        }
    }

    pub fn is_name(&self) -> bool
        ensures { result ≡ is_name self.now.words.now }
    {
        matches!(self.words.first(), Some(Word::Name(_)))
    }

    pub fn is_number(&self) -> bool
        ensures { result ≡ is_number self.now.words.now }
    {
        matches!(self.words.first(), Some(Word::Number(_)))
    }

    fn is_word(&self) -> bool
        ensures { result ≡ is_word self.now.words.now }
    {
        !self.words.is_empty()
    }

    /// Goes past the fixed word, and answers whether it came.
    #[tactic(auto, unfolding(crate::specs::WordReaders::sign_at))]
    pub fn takes(&mut self, sign: Sign) -> bool
        ensures came { result ≡ comes sign self.old.words.now }
        ensures taken { IsTrue result → sign_at sign self.old.words.now ≡ Ok (tt, self.new.words.now) }
        ensures left { result ≡ false → self.new.words.now ≡ self.old.words.now }
    {
        let came = self.comes(sign);
        if came {
            self.words = &self.words[1..];
        }
        came
    }

    #[tactic(auto, unfolding(crate::specs::WordReaders::sign_at))]
    pub fn sign(&mut self, sign: Sign) -> Result<(), Fault>
        ensures { Gives result self.new.words.now (sign_at sign self.old.words.now) }
    {
        if self.takes(sign) {
            Ok(())
        } else {
            Err(Fault::Syntax)
        }
    }

    /// The value, where its statement ends here.
    pub fn ended<T: Drop>(&mut self, value: T) -> Result<T, Fault>
        ensures { Gives result self.new.words.now (ended_at value self.old.words.now) }
    {
        self.sign(Sign::End)?;
        Ok(value)
    }

    #[tactic(auto, unfolding(crate::specs::WordReaders::name_at))]
    pub fn name(&mut self) -> Result<Text, Fault>
        ensures { Gives result self.new.words.now (name_at self.old.words.now) }
    {
        match self.words {
            [Word::Name(name), rest @ ..] => {
                let name = copied(name)?;
                self.words = rest;
                Ok(name)
            }
            _ => Err(Fault::Syntax),
        }
    }

    #[tactic(auto, unfolding(crate::specs::WordReaders::number_at))]
    pub fn number(&mut self) -> Result<u64, Fault>
        ensures { Gives result self.new.words.now (number_at self.old.words.now) }
    {
        match self.words {
            [Word::Number(number), rest @ ..] => {
                self.words = rest;
                Ok(*number)
            }
            _ => Err(Fault::Syntax),
        }
    }

    #[tactic(auto, unfolding(crate::specs::WordReaders::end_at, acc_grammar::specs::Runs::absent_at))]
    pub fn end(&self) -> Result<(), Fault>
        ensures { Gives result self.now.words.now (end_at self.now.words.now) }
    {
        if self.is_word() {
            return Err(Fault::Syntax);
        }
        Ok(())
    }

    /// Names, as long as one comes.
    pub fn names(&mut self) -> Result<Seq<Text>, Fault>
        ensures { Gives result self.new.words.now (many is_name name_at self.old.words.now) }
    {
        let mut names = Seq::new(self.alloc);
        while self.is_name() {
            let name = self.name()?;
            names.push(name)?;
        }
        Ok(names)
    }
}
