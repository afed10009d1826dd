//! Why a script or an order isn't read.
ghost use Rattle.std.specs.Prelude.{◌≡◌};
ghost use Rattle.acc_script.specs.declared.errors.LineError.TheVariants as line_error;

use std::alloc::AllocError;

/// Why a text is no script, or no order.
#[derive(Clone, Copy, Debug, PartialEq, Eq)]
pub enum ScriptError {
    /// The line of this number, counted from 1, is the first that isn't as it has to be, or one more than there may be.
    Line(u64),
    Memory,
}

/// Why a line isn't read.
#[derive(Clone, Copy)]
pub enum LineError {
    /// It isn't as it has to be, or says more than there may be.
    Refused,
    Memory,
}

impl From<AllocError> for LineError {
    ghost from_gives = { λ _ e. e ≡ line_error.Memory };

    fn from(_: AllocError) -> Self {
        LineError::Memory
    }
}

impl LineError {
    /// The error of a text of which the line of this number isn't read.
    pub fn at(self, number: u64) -> ScriptError
        ensures refused { self ≡ LineError.Refused → result ≡ ScriptError.Line number }
        ensures memory { self ≡ LineError.Memory → result ≡ ScriptError.Memory }
    {
        match self {
            LineError::Refused => ScriptError::Line(number),
            LineError::Memory => ScriptError::Memory,
        }
    }
}
