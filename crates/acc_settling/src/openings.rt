//! The board of a schedule before its first mention.
ghost use Rattle.std.specs.Prelude.{◌≡◌, [], IfOk};
ghost use Rattle.acc_player.specs.Boards.{play_of, IsBoardOf};
ghost use Rattle.acc_settling.specs.Openings.{opening_at, IsFresh, CanBegin};
ghost use Rattle.acc_settling.specs.Runs.{IsAcked};

use crate::counting::transactions;
use crate::settling::Settling;
use acc_disk::Disk;
use acc_player::Board;
use acc_store::Store;
use std::alloc::{AllocError, Global};

/// The board before the first mention. Each reply is durable then.
pub fn opening<S: Store, D: Disk>(
    alloc: Global,
    player: &Settling<S, D>,
) -> Result<Board, AllocError>
    requires fresh { IsFresh player.now }
    ensures acked { IsAcked player.now }
    ensures board { IfOk result (IsBoardOf player.now.calls (CanBegin player.now)) }
    ensures opens { IfOk result (λ b. play_of player.now.state b ≡ opening_at player.now.state player.now.calls) }
    ensures text { IfOk result (λ b. b.text.items ≡ []) }
{
    let before = transactions(&player.engine);
    let board = Board::open(alloc, player.engine.places(), before)?;
    Ok(board)
}
