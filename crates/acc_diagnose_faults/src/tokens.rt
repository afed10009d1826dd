//! The tokens of a text that is words.
use acc_base::sequences::Seq;
use acc_lex::{LexError, Token, lex};
use std::alloc::{AllocError, Global};

/// The tokens of a text; none where it has none.
pub fn tokens_of(alloc: Global, text: &[u8]) -> Result<Seq<Token>, AllocError> {
    match lex(alloc, text) {
        Ok(tokens) => Ok(tokens),
        Err(LexError::Bad(_)) => Ok(Seq::new(alloc)),
        Err(LexError::Memory) => Err(AllocError),
    }
}
