//! Mentions of places.
ghost use Rattle.std.specs.Prelude.{◌≡◌, ◌-◌, length, Some, None, IfOk, IfErr, IfSome, OnOk, OnErr, slice_get};
ghost use Rattle.acc_base.specs.Plays.{number_of};
ghost use Rattle.acc_plain.specs.Turned.{IsUnfinished};
ghost use Rattle.acc_script.specs.OrderLines.{IsPlace};
ghost use Rattle.acc_player.specs.declared.stops.Stop.TheVariants.{Memory};
ghost use Rattle.acc_player.specs.Boards.{play_of, IsBoardOf, KeepsBegun, HasBegun, GoesOn, IsMentioned};
ghost use Rattle.acc_player.specs.Boards.{IsAfterBegin, IsAfterGoing, IsAfterMention};
ghost use Rattle.acc_player.specs.Details.{mention_text};
ghost use Rattle.acc_player.specs.Players.{CanStart};
ghost use Rattle.acc_player.specs.Ways.{PlayPrecedesEach};

use crate::boards::Board;
use crate::details::Detail;
use crate::players::Player;
use crate::stops::Stop;
use acc_base::designs::Design;

/// The number of a place's transaction; a place that hasn't begun begins, unless the machine is full. Want of memory is told only where
/// it could begin.
pub fn number<P: Player>(player: &mut P, board: &mut Board, place: u64) -> Result<Option<u64>, Stop>
    requires ready { P.ready player.old }
    requires board { IsBoardOf (P.calls player.old) (P.can_begin player.old) board.old }
    requires place { IsPlace (length (P.calls player.old)) place }
    ensures begun { IfOk result (λ found. HasBegun (P.rules (P.design player.old)) (P.calls player.old) place
        (play_of (P.world player.old) board.old) (number_of (play_of (P.world player.old) board.old) place) found
        (play_of (P.world player.new) board.new)) }
    ensures here { IfOk result (λ found. IfSome found (λ t. slice_get board.new.numbers.items (place - 1) ≡ Some (Some t))) }
    ensures room { IfErr result (λ stop. stop ≡ Memory → CanStart (P.rules (P.design player.old)) (P.calls player.old) place
        (P.world player.old)) }
    ensures board { IsBoardOf (P.calls player.new) (P.can_begin player.new) board.new }
    ensures kept { KeepsBegun board.old board.new }
    ensures text { board.new.text.items ≡ board.old.text.items }
    ensures design { P.design player.new ≡ P.design player.old }
    ensures calls { P.calls player.new ≡ P.calls player.old }
    ensures done { OnOk result (P.leaves None player.old player.new) }
    ensures stops { IfErr result (λ stop. P.leaves (Some stop) player.old player.new) }
    ensures front { OnErr result (PlayPrecedesEach (play_of (P.world player.new) board.new)
        (IsAfterBegin (P.rules (P.design player.old)) (P.calls player.old) place (play_of (P.world player.old) board.old))) }
{
    let at = (place - 1) as usize;
    if let Some(t) = board.numbers[at] {
        return Ok(Some(t));
    }
    match player.begin_at(place)? {
        Some(t) => {
            board.numbers[at] = Some(t);
            board.places.push(place)?;
            Ok(Some(t))
        }
        None => Ok(None),
    }
}

/// Gives an unfinished transaction its turn, and tells of it.
fn take_open_turn<P: Player>(
    player: &mut P,
    board: &mut Board,
    d: &Design,
    detail: Detail,
    place: u64,
    t: u64,
) -> Result<(), Stop>
    requires ready { P.ready player.old }
    requires design { P.design player.old ≡ d.now }
    requires board { IsBoardOf (P.calls player.old) (P.can_begin player.old) board.old }
    requires unfinished { IsUnfinished t (P.world player.old) }
    ensures turn { OnOk result (GoesOn (P.rules d.now) (mention_text detail d.now) place t (P.world player.old) (P.world player.new)
        board.old board.new) }
    ensures board { IsBoardOf (P.calls player.new) (P.can_begin player.new) board.new }
    ensures design { P.design player.new ≡ P.design player.old }
    ensures calls { P.calls player.new ≡ P.calls player.old }
    ensures done { OnOk result (P.leaves None player.old player.new) }
    ensures stops { IfErr result (λ stop. P.leaves (Some stop) player.old player.new) }
    ensures front { OnErr result (PlayPrecedesEach (play_of (P.world player.new) board.new)
        (IsAfterGoing (P.rules d.now) place t (play_of (P.world player.old) board.old))) }
{
    match player.turn(t)? {
        Some(turn) => {
            detail.tell_turn(&mut board.text, d, board.places.as_slice(), place, turn)?
        }
        None => detail.tell_stuck(&mut board.text, place)?,
    }
    Ok(())
}

/// Gives a transaction its turn, if it hasn't ended, and tells of it.
fn take_turn<P: Player>(
    player: &mut P,
    board: &mut Board,
    d: &Design,
    detail: Detail,
    place: u64,
    t: u64,
) -> Result<(), Stop>
    requires ready { P.ready player.old }
    requires design { P.design player.old ≡ d.now }
    requires board { IsBoardOf (P.calls player.old) (P.can_begin player.old) board.old }
    ensures turn { OnOk result (GoesOn (P.rules d.now) (mention_text detail d.now) place t (P.world player.old) (P.world player.new)
        board.old board.new) }
    ensures board { IsBoardOf (P.calls player.new) (P.can_begin player.new) board.new }
    ensures design { P.design player.new ≡ P.design player.old }
    ensures calls { P.calls player.new ≡ P.calls player.old }
    ensures done { OnOk result (P.leaves None player.old player.new) }
    ensures stops { IfErr result (λ stop. P.leaves (Some stop) player.old player.new) }
    ensures front { OnErr result (PlayPrecedesEach (play_of (P.world player.new) board.new)
        (IsAfterGoing (P.rules d.now) place t (play_of (P.world player.old) board.old))) }
{
    if player.is_unfinished(t) {
        return take_open_turn(player, board, d, detail, place, t);
    }
    match player.reply(t) {
        Some(_) => detail.tell_over(&mut board.text, place)?,
        None => detail.tell_stuck(&mut board.text, place)?,
    }
    Ok(())
}

/// Mentions a place: it begins where it hasn't, and takes its turn.
pub fn mention<P: Player>(
    player: &mut P,
    board: &mut Board,
    d: &Design,
    detail: Detail,
    place: u64,
) -> Result<(), Stop>
    requires ready { P.ready player.old }
    requires design { P.design player.old ≡ d.now }
    requires board { IsBoardOf (P.calls player.old) (P.can_begin player.old) board.old }
    requires place { IsPlace (length (P.calls player.old)) place }
    ensures mention { OnOk result (IsMentioned (P.rules d.now) (mention_text detail d.now) (P.calls player.old) place
        (P.world player.old) (P.world player.new) board.old board.new) }
    ensures board { IsBoardOf (P.calls player.new) (P.can_begin player.new) board.new }
    ensures design { P.design player.new ≡ P.design player.old }
    ensures calls { P.calls player.new ≡ P.calls player.old }
    ensures done { OnOk result (P.leaves None player.old player.new) }
    ensures stops { IfErr result (λ stop. P.leaves (Some stop) player.old player.new) }
    ensures front { OnErr result (PlayPrecedesEach (play_of (P.world player.new) board.new)
        (IsAfterMention (P.rules d.now) (P.calls player.old) place (play_of (P.world player.old) board.old))) }
{
    match number(player, board, place)? {
        Some(t) => take_turn(player, board, d, detail, place, t),
        None => Ok(detail.tell_full(&mut board.text, place)?),
    }
}
