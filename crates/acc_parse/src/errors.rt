//! Why a text is no design.
ghost use Rattle.std.specs.Prelude.{◌≡◌};
ghost use Rattle.acc_parse.specs.declared.errors.ParseError.TheVariants as parse_error;

use acc_parse_limits::Limit;
use std::alloc::AllocError;

/// Why a text is no design. Lines are counted from 1.
#[derive(Clone, Copy)]
pub enum ParseError {
    /// The text isn't of the grammar: the line up to which no design's text goes on, or one more than the number of its line
    /// feeds where it only ends too early.
    Syntax(u64),
    /// The text is of the grammar: the first line with a name that is defined a second time, or used and not defined.
    Name(u64),
    /// The text is of the grammar and its names are right: the first line that passes a limit, and the lowest limit that is passed
    /// there.
    Limit(u64, Limit),
    /// Want of memory.
    Memory,
}

impl From<AllocError> for ParseError {
    ghost from_gives = { λ _ e. e ≡ parse_error.Memory };

    fn from(_failed: AllocError) -> Self {
        ParseError::Memory
    }
}
