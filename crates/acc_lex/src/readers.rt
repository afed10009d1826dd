//! What is left of a text, and the tokens at its front.
ghost use Rattle.std.specs.Prelude.{◌≡◌, ◌-◌, ◌≤◌, ◌==◌, true, length, take, drop, IfOk};
ghost use Rattle.acc_grammar.specs.Runs.{next_is, one_at, run_at, front_at, absent_at};
ghost use Rattle.acc_grammar.specs.Answers.{Gives, GivesAs};
ghost use Rattle.acc_lex.specs.ByteKinds.{is_byte, is_plain, is_letter, is_digit, is_leading, is_inner};
ghost use Rattle.acc_lex.specs.declared.words.Sign.{Sign as SignValue};
ghost use Rattle.acc_lex.specs.LineTokens.{shape_of};
ghost use Rattle.acc_lex.specs.Readings.{spaces_at, letters_at, zero_at, whole_at, pair_at, arrow_at, equal_at, mark_at, token_at};
ghost use Rattle.acc_lex.specs.Readings.{is_inside};

use crate::parts::{Part, Shape};
use crate::scans::{digits_len, inner_len, is_inner, is_leading, is_mark, plain_len, spaces_len};
use acc_base::sequences::Seq;
use acc_grammar::faults::Fault;

/// The bytes that are left, and the parts of those before.
#[derive(Drop)]
pub struct Lexer<'a> {
    /// The bytes that are left.
    pub rest: &'a [u8],
    /// The parts of the bytes before.
    pub parts: Seq<Part>,
}

impl<'a> Lexer<'a> {
    pub fn comes(&self, c: u8) -> bool
        ensures { result ≡ next_is (is_byte c) self.now.rest.now }
    {
        match self.rest.first() {
            Some(b) => *b == c,
            None => false,
        }
    }

    fn word_comes(&self) -> bool
        ensures { result ≡ next_is is_letter self.now.rest.now }
    {
        match self.rest.first() {
            Some(b) => b.is_ascii_alphabetic(),
            None => false,
        }
    }

    fn whole_comes(&self) -> bool
        ensures { result ≡ next_is is_leading self.now.rest.now }
    {
        match self.rest.first() {
            Some(b) => is_leading(*b),
            None => false,
        }
    }

    /// Whether neither a line feed, nor a `;`, nor the end comes.
    pub fn token_comes(&self) -> bool
        ensures { result ≡ next_is is_inside self.now.rest.now }
    {
        match self.rest.first() {
            Some(b) => *b != b'\n' && *b != b';',
            None => false,
        }
    }

    /// Wants no letter, digit or `_` to come.
    #[tactic(auto, unfolding(acc_grammar::specs::Runs::absent_at))]
    fn ends_here(&self) -> Result<(), Fault>
        ensures { Gives result self.now.rest.now (absent_at is_inner self.now.rest.now) }
    {
        match self.rest.first() {
            Some(b) if is_inner(*b) => Err(Fault::Syntax),
            _ => Ok(()),
        }
    }

    #[tactic(auto, unfolding(acc_grammar::specs::Runs::one_at))]
    pub fn byte(&mut self, c: u8) -> Result<u8, Fault>
        ensures given { Gives result self.new.rest.now (one_at (is_byte c) self.old.rest.now) }
        ensures same { IfOk result (λ b. b ≡ c) }
        ensures parts { self.new.parts ≡ self.old.parts }
    {
        match self.rest.split_first() {
            Some((b, rest)) if *b == c => {
                self.rest = rest;
                Ok(*b)
            }
            _ => Err(Fault::Syntax),
        }
    }

    /// Takes so many bytes off the front.
    fn front(&mut self, len: usize) -> &'a [u8]
        requires { len ≤ length self.old.rest.now }
        ensures taken { result.now ≡ take len self.old.rest.now }
        ensures rest { self.new.rest.now ≡ drop len self.old.rest.now }
        ensures parts { self.new.parts ≡ self.old.parts }
    {
        let (front, rest) = self.rest.split_at(len);
        self.rest = rest;
        front
    }

    /// The letters, digits and `_` at the front.
    fn letters(&mut self) -> &'a [u8]
        requires { next_is is_letter self.old.rest.now ≡ true }
        ensures given { run_at is_letter is_inner self.old.rest.now ≡ Ok (result.now, self.new.rest.now) }
        ensures parts { self.new.parts ≡ self.old.parts }
    {
        let len = inner_len(self.rest);
        self.front(len)
    }

    /// The digits at the front.
    fn digits(&mut self) -> &'a [u8]
        requires { next_is is_leading self.old.rest.now ≡ true }
        ensures given { run_at is_leading is_digit self.old.rest.now ≡ Ok (result.now, self.new.rest.now) }
        ensures parts { self.new.parts ≡ self.old.parts }
    {
        let len = digits_len(self.rest);
        self.front(len)
    }

    /// Goes past the bytes of a comment.
    pub fn comment(&mut self) -> &'a [u8]
        ensures given { front_at is_plain self.old.rest.now ≡ Ok (result.now, self.new.rest.now) }
        ensures parts { self.new.parts ≡ self.old.parts }
    {
        let len = plain_len(self.rest);
        self.front(len)
    }

    /// How many spaces come, past which it goes.
    pub fn spaces(&mut self) -> usize
        ensures given { spaces_at self.old.rest.now ≡ Ok (result, self.new.rest.now) }
        ensures parts { self.new.parts ≡ self.old.parts }
    {
        let len = spaces_len(self.rest);
        self.front(len);
        len
    }

    #[tactic(auto, unfolding(crate::specs::Readings::letters_at))]
    fn word(&mut self) -> Shape
        requires { next_is is_letter self.old.rest.now ≡ true }
        ensures given { GivesAs shape_of (Ok result) self.new.rest.now (letters_at self.old.rest.now) }
        ensures parts { self.new.parts ≡ self.old.parts }
    {
        self.letters();
        Shape::Word
    }

    #[tactic(auto, unfolding(crate::specs::Readings::zero_at))]
    fn zero(&mut self) -> Result<Shape, Fault>
        ensures given { GivesAs shape_of result self.new.rest.now (zero_at self.old.rest.now) }
        ensures parts { self.new.parts ≡ self.old.parts }
    {
        self.byte(b'0')?;
        self.ends_here()?;
        Ok(Shape::Number)
    }

    #[tactic(auto, unfolding(crate::specs::Readings::whole_at))]
    fn whole(&mut self) -> Result<Shape, Fault>
        requires { next_is is_leading self.old.rest.now ≡ true }
        ensures given { GivesAs shape_of result self.new.rest.now (whole_at self.old.rest.now) }
        ensures parts { self.new.parts ≡ self.old.parts }
    {
        self.digits();
        self.ends_here()?;
        Ok(Shape::Number)
    }

    /// A mark of two bytes.
    #[tactic(auto, unfolding(crate::specs::Readings::pair_at))]
    fn pair(&mut self, first: u8, second: u8) -> Result<Shape, Fault>
        ensures given { (sign : SignValue) → GivesAs shape_of result self.new.rest.now (pair_at first second sign self.old.rest.now) }
        ensures parts { self.new.parts ≡ self.old.parts }
    {
        self.byte(first)?;
        self.byte(second)?;
        Ok(Shape::Mark)
    }

    /// Whether a `>` follows, which then is read.
    #[tactic(auto, unfolding(crate::specs::Readings::arrow_at))]
    fn arrow(&mut self) -> Result<bool, Fault>
        ensures given { Gives result self.new.rest.now (arrow_at self.old.rest.now) }
        ensures parts { self.new.parts ≡ self.old.parts }
    {
        if self.comes(b'>') {
            self.byte(b'>')?;
            Ok(true)
        } else {
            Ok(false)
        }
    }

    #[tactic(auto, unfolding(crate::specs::Readings::equal_at))]
    fn equal(&mut self) -> Result<Shape, Fault>
        ensures given { GivesAs shape_of result self.new.rest.now (equal_at self.old.rest.now) }
        ensures parts { self.new.parts ≡ self.old.parts }
    {
        self.byte(b'=')?;
        self.arrow()?;
        Ok(Shape::Mark)
    }

    /// A mark of one byte with which no other mark begins.
    #[tactic(auto, unfolding(crate::specs::Readings::mark_at, acc_grammar::specs::Runs::one_at))]
    fn mark(&mut self) -> Result<Shape, Fault>
        ensures given { GivesAs shape_of result self.new.rest.now (mark_at self.old.rest.now) }
        ensures parts { self.new.parts ≡ self.old.parts }
    {
        match self.rest.split_first() {
            Some((b, rest)) if is_mark(*b) => {
                self.rest = rest;
                Ok(Shape::Mark)
            }
            _ => Err(Fault::Syntax),
        }
    }

    #[tactic(auto, unfolding(crate::specs::Readings::token_at))]
    pub fn token(&mut self) -> Result<Shape, Fault>
        ensures given { GivesAs shape_of result self.new.rest.now (token_at self.old.rest.now) }
        ensures parts { self.new.parts ≡ self.old.parts }
    {
        if self.word_comes() {
            Ok(self.word())
        } else if self.comes(b'0') {
            self.zero()
        } else if self.whole_comes() {
            self.whole()
        } else if self.comes(b'<') {
            self.pair(b'<', b'=')
        } else if self.comes(b'>') {
            self.pair(b'>', b'=')
        } else if self.comes(b'=') {
            self.equal()
        } else {
            self.mark()
        }
    }
}
