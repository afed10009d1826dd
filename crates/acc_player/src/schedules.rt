//! Calls that are played in an order, and what is told of it.
ghost use Rattle.std.specs.Prelude.{◌≡◌, ◌++◌, ◌≤◌, ℕ, [], length, All, Some, None, IfOk, IfErr, OnOk, OnErr, IsTrue, IsFalse, IsSome};
ghost use Rattle.std.specs.Prelude.{slice_get};
ghost use Rattle.std.specs.List.{flat_map, range_with_len};
ghost use Rattle.acc_base.specs.declared.bounds.TheConstants.{MOST_EVENTS};
ghost use Rattle.acc_base.specs.Machine.{unfinished};
ghost use Rattle.acc_script.specs.OrderLines.{IsPlace};
ghost use Rattle.acc_player.specs.Boards.{play_of, IsBoardOf, IsUnbegun};
ghost use Rattle.acc_player.specs.Details.{mention_text};
ghost use Rattle.acc_player.specs.Schedules.{IsPlayed, IsAfterOrder, IsAfterSchedule, IsRun, line_after};
ghost use Rattle.acc_player.specs.Ways.{PlayPrecedesEach};

use crate::boards::Board;
use crate::details::Detail;
use crate::enders::Ender;
use crate::endings::{end_all, end_places};
use crate::mentions::mention;
use crate::players::Player;
use crate::stops::Stop;
use acc_base::designs::Design;
use acc_script::{push_reply, push_unbegun, push_unfinished};
use std::alloc::{AllocError, Global};

/// Mentions the places of an order, one after the other, and tells of each.
pub fn mention_all<P: Player>(
    player: &mut P,
    board: &mut Board,
    d: &Design,
    detail: Detail,
    order: &[u64],
) -> Result<(), Stop>
    requires ready { P.ready player.old }
    requires design { P.design player.old ≡ d.now }
    requires board { IsBoardOf (P.calls player.old) (P.can_begin player.old) board.old }
    requires places { All (IsPlace (length (P.calls player.old))) order.now }
    requires text { board.old.text.items ≡ [] }
    ensures played { OnOk result (IsPlayed (P.rules d.now) (mention_text detail d.now) (P.calls player.old)
        (play_of (P.world player.old) board.old) order.now board.new.text.items (play_of (P.world player.new) board.new)) }
    ensures board { IsBoardOf (P.calls player.new) (P.can_begin player.new) board.new }
    ensures design { P.design player.new ≡ P.design player.old }
    ensures calls { P.calls player.new ≡ P.calls player.old }
    ensures done { OnOk result (P.leaves None player.old player.new) }
    ensures stops { IfErr result (λ stop. P.leaves (Some stop) player.old player.new) }
    ensures front { OnErr result (PlayPrecedesEach (play_of (P.world player.new) board.new)
        (IsAfterOrder (P.rules d.now) (P.calls player.old) order.now (play_of (P.world player.old) board.old))) }
{
    for place in order {
        mention(player, board, d, detail, *place)?;
    }
    Ok(())
}

/// Writes the reply line of a place.
fn push_reply_line<P: Player>(
    player: &P,
    numbers: &[Option<u64>],
    text: &mut Vec<u8>,
    place: u64,
) -> Result<(), AllocError>
    requires place { IsPlace (length numbers.now) place }
    ensures { OnOk result (text.new.items ≡ text.old.items ++ line_after (P.world player.now) numbers.now place) }
{
    match numbers[(place - 1) as usize] {
        None => push_unbegun(text, place),
        Some(t) => match player.reply(t) {
            Some(reply) => push_reply(text, place, reply),
            None => push_unfinished(text, place),
        },
    }
}

/// Writes the reply line of each place.
pub fn push_replies<P: Player>(
    player: &P,
    numbers: &[Option<u64>],
    text: &mut Vec<u8>,
) -> Result<(), AllocError>
    ensures { OnOk result (text.new.items ≡ text.old.items
        ++ flat_map (line_after (P.world player.now) numbers.now) (range_with_len 1 (length numbers.now))) }
{
    for at in 0..numbers.len() {
        push_reply_line(player, numbers, text, at as u64 + 1)?;
    }
    Ok(())
}

/// Whether each place has begun.
pub fn all_begun(numbers: &[Option<u64>]) -> bool
    ensures all { IsTrue result → All IsSome numbers.now }
    ensures some { IsFalse result → (at : ℕ) × (slice_get numbers.now at ≡ Some None) }
{
    for number in numbers {
        if number.is_none() {
            return false;
        }
    }
    true
}

/// Lets the places of a board take their turns in the order, of which it tells, and ends them.
pub fn run<P: Ender>(
    alloc: Global,
    player: &mut P,
    board: &mut Board,
    d: &Design,
    detail: Detail,
    order: &[u64],
) -> Result<(), Stop>
    requires ready { P.ready player.old }
    requires design { P.design player.old ≡ d.now }
    requires board { IsBoardOf (P.calls player.old) (P.can_begin player.old) board.old }
    requires places { All (IsPlace (length (P.calls player.old))) order.now }
    requires text { board.old.text.items ≡ [] }
    ensures runs { OnOk result (IsRun (P.rules d.now) (mention_text detail d.now) (P.calls player.old)
        (play_of (P.world player.old) board.old) order.now board.new.text.items (play_of (P.world player.new) board.new)) }
    ensures full { OnOk result ((at : ℕ) → IsUnbegun at board.new → MOST_EVENTS ≤ length (P.world player.new).events) }
    ensures over { OnOk result (unfinished (P.world player.new) ≡ []) }
    ensures board { IsBoardOf (P.calls player.new) (P.can_begin player.new) board.new }
    ensures design { P.design player.new ≡ P.design player.old }
    ensures calls { P.calls player.new ≡ P.calls player.old }
    ensures done { OnOk result (P.leaves None player.old player.new) }
    ensures stops { IfErr result (λ stop. P.leaves (Some stop) player.old player.new) }
    ensures front { OnErr result (PlayPrecedesEach (play_of (P.world player.new) board.new)
        (IsAfterSchedule (P.rules d.now) (P.calls player.old) order.now (play_of (P.world player.old) board.old))) }
{
    mention_all(player, board, d, detail, order)?;
    end_all(alloc, player)?;
    end_places(alloc, player, board)
}
