//! The parts of a text, one behind the other, and the tokens that they are.
ghost use Rattle.std.specs.Prelude.{◌≡◌, ◌^◌, ◌<◌, ◌++◌, IfOk, OnOk};
ghost use Rattle.acc_lex.specs.LineTokens.{parts_len, kind_of, feeds_of, token_of, tokens_from};

use crate::tokens::{Kind, Token};
use acc_base::sequences::Seq;
use std::alloc::{AllocError, Global};

/// What a part of a text is.
#[derive(Clone, Copy)]
pub enum Shape {
    /// Spaces or a comment, between tokens.
    Gap,
    Word,
    Number,
    Mark,
    /// A `;`.
    Stop,
    /// A line feed.
    Feed,
    /// The end of the text.
    Last,
}

/// A part of a text, and how many bytes it has.
#[derive(Clone, Copy)]
pub struct Part {
    pub shape: Shape,
    pub len: usize,
}

/// The kind of token that a part is, if it is one.
fn kind_of(shape: Shape) -> Option<Kind>
    ensures { result ≡ kind_of shape }
{
    match shape {
        Shape::Gap => None,
        Shape::Word => Some(Kind::Word),
        Shape::Number => Some(Kind::Number),
        Shape::Mark => Some(Kind::Mark),
        Shape::Stop | Shape::Feed | Shape::Last => Some(Kind::End),
    }
}

/// How many line feeds a part has.
fn feeds_of(shape: Shape) -> u64
    ensures { result ≡ feeds_of shape }
{
    match shape {
        Shape::Feed => 1,
        _ => 0,
    }
}

/// Adds a token, if it is of a kind.
fn add_token(
    tokens: &mut Seq<Token>,
    kind: Option<Kind>,
    line: u64,
    from: u64,
    to: u64,
) -> Result<(), AllocError>
    ensures { OnOk result (tokens.new ≡ tokens.old ++ token_of kind line from to) }
{
    match kind {
        Some(kind) => {
            tokens.push(Token {
                line,
                from,
                to,
                kind,
            })?;
            Ok(())
        }
        None => Ok(()),
    }
}

/// The tokens of a text that is made of these parts.
pub fn tokens_of(alloc: Global, parts: &[Part]) -> Result<Seq<Token>, AllocError>
    requires { parts_len parts.now < 2 ^ 64 }
    ensures { IfOk result (λ tokens. tokens ≡ tokens_from 1 0 parts.now) }
{
    let mut tokens = Seq::new(alloc);
    let mut line = 1;
    let mut from = 0;
    for part in parts {
        let to = from + part.len as u64;
        add_token(&mut tokens, kind_of(part.shape), line, from, to)?;
        line += feeds_of(part.shape);
        from = to;
    }
    Ok(tokens)
}
