//! A design's text, read from left to right.
ghost use Rattle.std.specs.Prelude.{◌≡◌, ◌+◌, ◌-◌, ◌≤◌, ◌==◌, ◌++◌, List, length, count_by, MatchResult, IfOk, OnOk};
ghost use Rattle.acc_grammar.specs.Readers.{AllIn, joined};
ghost use Rattle.acc_grammar.specs.Runs.{absent_at};
ghost use Rattle.acc_grammar.specs.Answers.{Gives, Adds};
ghost use Rattle.acc_lex.specs.declared.tokens.Token.{Token as TokenValue};
ghost use Rattle.acc_lex.specs.LineTokens.{part, gap, item_parts, statement_parts, next_statement_parts, line_parts};
ghost use Rattle.acc_lex.specs.LineTokens.{next_line_parts, lines_parts};
ghost use Rattle.acc_lex.specs.Readings.{spaces_at};
ghost use Rattle.acc_lex.specs.Readings.{item_at, items_at, statement_at, next_statement_at, next_statements_at, body_parts};
ghost use Rattle.acc_lex.specs.Readings.{remark_at, rest_at, body_at, line_at, next_line_at, next_lines_at, is_any, lines_at};
ghost use Rattle.acc_lex.specs.Slices.{line_number, IsSlice, InOrder, words_of};
ghost use Rattle.acc_lex.specs.Texts.{IsLexed, HasTokens, TokenAnswers};

use crate::parts::{Part, Shape, tokens_of};
use crate::readers::Lexer;
use crate::tokens::Token;
use acc_base::sequences::Seq;
use acc_grammar::faults::Fault;
use std::alloc::{AllocError, Global};

/// Why bytes are no design's text.
#[derive(Clone, Copy)]
pub enum LexError {
    /// On this line, counted from 1, stands the first byte with which no text goes on, or the text ends too early.
    Bad(u64),
    /// Memory ran out; nothing is said of the text.
    Memory,
}

impl From<AllocError> for LexError {
    ghost use Rattle.acc_lex.specs.declared.lexers.LexError.TheVariants.{Memory};

    ghost from_gives = { λ _ e. e ≡ Memory };

    fn from(_e: AllocError) -> LexError {
        LexError::Memory
    }
}

impl<'a> Lexer<'a> {
    /// Adds a part.
    fn add(&mut self, shape: Shape, len: usize) -> Result<(), AllocError>
        ensures added { OnOk result (self.new.parts ≡ self.old.parts ++ part shape len) }
        ensures rest { self.new.rest.now ≡ self.old.rest.now }
    {
        self.parts.push(Part { shape, len })?;
        Ok(())
    }

    /// Adds bytes between tokens, if there are any.
    fn add_gap(&mut self, len: usize) -> Result<(), AllocError>
        ensures added { OnOk result (self.new.parts ≡ self.old.parts ++ gap len) }
        ensures rest { self.new.rest.now ≡ self.old.rest.now }
    {
        if len > 0 {
            self.add(Shape::Gap, len)?;
        }
        Ok(())
    }

    /// Goes past spaces.
    fn blanks(&mut self) -> Result<(), Fault>
        ensures { Adds gap result self.old.parts self.new.parts self.new.rest.now (spaces_at self.old.rest.now) }
    {
        let len = self.spaces();
        self.add_gap(len)?;
        Ok(())
    }

    /// A token, and the spaces behind it.
    #[tactic(auto, unfolding(crate::specs::Readings::item_at))]
    fn item(&mut self) -> Result<(), Fault>
        ensures { Adds item_parts result self.old.parts self.new.parts self.new.rest.now (item_at self.old.rest.now) }
    {
        let len = self.rest.len();
        let shape = self.token()?;
        self.add(shape, len - self.rest.len())?;
        self.blanks()
    }

    fn items(&mut self) -> Result<(), Fault>
        ensures { Adds (joined item_parts) result self.old.parts self.new.parts self.new.rest.now (items_at self.old.rest.now) }
    {
        while self.token_comes() {
            self.item()?;
        }
        Ok(())
    }

    #[tactic(auto, unfolding(crate::specs::Readings::statement_at))]
    fn statement(&mut self) -> Result<(), Fault>
        ensures { Adds statement_parts result self.old.parts self.new.parts self.new.rest.now (statement_at self.old.rest.now) }
    {
        self.blanks()?;
        self.items()
    }

    #[tactic(auto, unfolding(crate::specs::Readings::next_statement_at))]
    fn next_statement(&mut self) -> Result<(), Fault>
        ensures { Adds next_statement_parts result self.old.parts self.new.parts self.new.rest.now (next_statement_at self.old.rest.now) }
    {
        self.byte(b';')?;
        self.add(Shape::Stop, 1)?;
        self.statement()
    }

    fn next_statements(&mut self) -> Result<(), Fault>
        ensures { Adds (joined next_statement_parts) result self.old.parts self.new.parts self.new.rest.now
            (next_statements_at self.old.rest.now) }
    {
        while self.comes(b';') {
            self.next_statement()?;
        }
        Ok(())
    }

    /// A comment behind its spaces.
    #[tactic(auto, unfolding(crate::specs::Readings::remark_at))]
    fn remark(&mut self) -> Result<(), Fault>
        ensures { Adds body_parts result self.old.parts self.new.parts self.new.rest.now (remark_at self.old.rest.now) }
    {
        self.byte(b'#')?;
        let comment = self.comment();
        self.add_gap(1 + comment.len())?;
        Ok(())
    }

    /// The statements of a line behind its first spaces.
    #[tactic(auto, unfolding(crate::specs::Readings::rest_at))]
    fn statements(&mut self) -> Result<(), Fault>
        ensures { Adds body_parts result self.old.parts self.new.parts self.new.rest.now (rest_at self.old.rest.now) }
    {
        self.items()?;
        self.next_statements()
    }

    #[tactic(auto, unfolding(crate::specs::Readings::body_at))]
    fn body(&mut self) -> Result<(), Fault>
        ensures { Adds body_parts result self.old.parts self.new.parts self.new.rest.now (body_at self.old.rest.now) }
    {
        if self.comes(b'#') {
            self.remark()
        } else {
            self.statements()
        }
    }

    #[tactic(auto, unfolding(crate::specs::Readings::line_at))]
    fn line(&mut self) -> Result<(), Fault>
        ensures { Adds line_parts result self.old.parts self.new.parts self.new.rest.now (line_at self.old.rest.now) }
    {
        self.blanks()?;
        self.body()
    }

    #[tactic(auto, unfolding(crate::specs::Readings::next_line_at))]
    fn next_line(&mut self) -> Result<(), Fault>
        ensures { Adds next_line_parts result self.old.parts self.new.parts self.new.rest.now (next_line_at self.old.rest.now) }
    {
        self.byte(b'\n')?;
        self.add(Shape::Feed, 1)?;
        self.line()
    }

    fn next_lines(&mut self) -> Result<(), Fault>
        ensures { Adds (joined next_line_parts) result self.old.parts self.new.parts self.new.rest.now (next_lines_at self.old.rest.now) }
    {
        while self.comes(b'\n') {
            self.next_line()?;
        }
        Ok(())
    }

    /// Wants nothing to be left.
    #[tactic(auto, unfolding(acc_grammar::specs::Runs::absent_at))]
    fn end(&self) -> Result<(), Fault>
        ensures { Gives result self.now.rest.now (absent_at is_any self.now.rest.now) }
    {
        if self.rest.is_empty() {
            Ok(())
        } else {
            Err(Fault::Syntax)
        }
    }

    /// The whole text.
    #[tactic(auto, unfolding(crate::specs::Readings::lines_at))]
    fn lines(&mut self) -> Result<(), Fault>
        ensures { Adds lines_parts result self.old.parts self.new.parts self.new.rest.now (lines_at self.old.rest.now) }
    {
        self.line()?;
        self.next_lines()?;
        self.end()?;
        self.add(Shape::Last, 0)?;
        Ok(())
    }
}

/// The number of the line on which the byte behind `front` stands, counted from 1.
fn line_behind(front: &[u8]) -> u64
    ensures { result ≡ 1 + count_by (λ b. b == 10) front.now }
{
    1 + front.iter().filter(|b| **b == b'\n').count() as u64
}

/// The line on which the first byte of `rest` stands, the end of `text`.
fn bad_line(text: &[u8], rest: &[u8]) -> u64
    requires { length rest.now ≤ length text.now }
    ensures { result ≡ line_number text.now (length text.now - length rest.now) }
{
    line_behind(&text[..text.len() - rest.len()])
}

/// The tokens of a design's text. The cost is linear in its bytes, of which none is copied.
pub fn lex(alloc: Global, text: &[u8]) -> Result<Seq<Token>, LexError>
    // The tokens are those of the text's lines, or it has none and the line is that of the first byte with which no
    // text goes on.
    ensures exact { TokenAnswers text.now result }
    // Whatever tokens a text has are answered, unless memory runs out.
    ensures only { (tokens : List TokenValue) → HasTokens text.now tokens
        → MatchResult result (λ found. found ≡ tokens) (λ e. e ≡ LexError.Memory) }
    // A text has one list of tokens.
    ensures unique { (a b : List TokenValue) → HasTokens text.now a → HasTokens text.now b → a ≡ b }
    // Each is a slice of its kind, with the line on which it begins.
    ensures slices { IfOk result (AllIn (IsSlice text.now)) }
    // They stand in order, with spaces and comments between them, up to the text's end.
    ensures order { IfOk result (InOrder text.now 0) }
    // Their words are those of the text.
    ensures words { IfOk result (λ tokens. IsLexed text.now (words_of text.now tokens)) }
{
    let mut lexer = Lexer {
        rest: text,
        parts: Seq::new(alloc),
    };
    match lexer.lines() {
        Ok(()) => Ok(tokens_of(alloc, lexer.parts.as_slice())?),
        Err(Fault::Memory) => Err(LexError::Memory),
        Err(Fault::Syntax) => Err(LexError::Bad(bad_line(text, lexer.rest))),
    }
}
