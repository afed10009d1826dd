//! How much is told of a mention.
ghost use Rattle.std.specs.Prelude.{◌≡◌, ◌++◌, ℕ, List, OnOk};
ghost use Rattle.acc_base.specs.declared.designs.Design.{Design as AnyDesign};
ghost use Rattle.acc_base.specs.Plays.{Turns, IsStuck, IsOver, IsFull};
ghost use Rattle.acc_player.specs.Details.{turn_mark, told_text};

use acc_base::designs::Design;
use acc_base::machines::{Cause, Turn};
use acc_script::{push_full, push_over, push_stuck, push_turn};
use std::alloc::AllocError;

/// The mark of a turn that was blocked.
pub const BLOCKED: u8 = b'b';

/// The mark of a turn by which a victim turned back.
pub const VICTIM: u8 = b'v';

/// How much is told of each mention.
#[derive(Clone, Copy)]
pub enum Detail {
    /// Its line.
    Lines,
    /// One byte where the turn was blocked or turned back as a victim, and nothing else.
    Marks,
}

/// Writes the mark of a turn, if it has one.
fn push_mark(text: &mut Vec<u8>, turn: Turn) -> Result<(), AllocError>
    ensures { OnOk result (text.new.items ≡ text.old.items ++ turn_mark turn) }
{
    match turn {
        Turn::Blocked(_, _) => text.push(BLOCKED)?,
        Turn::Turned(Cause::Victim) => text.push(VICTIM)?,
        Turn::Turned(Cause::Refused(_) | Cause::Range | Cause::Limit | Cause::Asked | Cause::Crash)
        | Turn::Stepped(_)
        | Turn::Back(_)
        | Turn::Ended => (),
    }
    Ok(())
}

impl Detail {
    /// Tells of a turn.
    pub fn tell_turn(
        self,
        text: &mut Vec<u8>,
        d: &Design,
        places: &[u64],
        place: u64,
        turn: Turn,
    ) -> Result<(), AllocError>
        ensures { OnOk result (text.new.items ≡ text.old.items ++ told_text self d.now places.now (Turns place turn)) }
    {
        match self {
            Detail::Lines => push_turn(text, d, places, place, turn),
            Detail::Marks => push_mark(text, turn),
        }
    }

    /// Tells that the undo step of a place's transaction is out of range.
    pub fn tell_stuck(self, text: &mut Vec<u8>, place: u64) -> Result<(), AllocError>
        ensures { OnOk result ((d : AnyDesign) (places : List ℕ) → text.new.items
            ≡ text.old.items ++ told_text self d places (IsStuck place)) }
    {
        match self {
            Detail::Lines => push_stuck(text, place),
            Detail::Marks => Ok(()),
        }
    }

    /// Tells that a place had ended before.
    pub fn tell_over(self, text: &mut Vec<u8>, place: u64) -> Result<(), AllocError>
        ensures { OnOk result ((d : AnyDesign) (places : List ℕ) → text.new.items
            ≡ text.old.items ++ told_text self d places (IsOver place)) }
    {
        match self {
            Detail::Lines => push_over(text, place),
            Detail::Marks => Ok(()),
        }
    }

    /// Tells that a place can't begin.
    pub fn tell_full(self, text: &mut Vec<u8>, place: u64) -> Result<(), AllocError>
        ensures { OnOk result ((d : AnyDesign) (places : List ℕ) → text.new.items
            ≡ text.old.items ++ told_text self d places (IsFull place)) }
    {
        match self {
            Detail::Lines => push_full(text, place),
            Detail::Marks => Ok(()),
        }
    }
}
