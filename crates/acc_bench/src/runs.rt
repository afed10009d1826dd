//! A load, and a mix behind it.
ghost use Rattle.std.specs.Prelude.{◌≡◌, ◌≤◌, ℕ, [], length, All, IfOk, OnOk};
ghost use Rattle.acc_base.specs.declared.bounds.TheConstants.{MOST_EVENTS};
ghost use Rattle.acc_base.specs.Machine.{unfinished};
ghost use Rattle.acc_script.specs.OrderLines.{IsPlace};
ghost use Rattle.acc_player.specs.declared.details.Detail.TheVariants.{Marks};
ghost use Rattle.acc_player.specs.Boards.{play_of, IsUnbegun};
ghost use Rattle.acc_player.specs.Details.{mention_text};
ghost use Rattle.acc_player.specs.Playing.{AllFit};
ghost use Rattle.acc_player.specs.Schedules.{IsRun};
ghost use Rattle.acc_lock_rules.specs.LockRules.{with_locks};
ghost use Rattle.acc_bench.specs.Runs.{IsOpened, IsBehind, IsLoad, IsMix};

use acc_base::designs::Design;
use acc_base::machines::Call;
use acc_index_store::IndexStore;
use acc_lift::Accepted;
use acc_lock_rules::State;
use acc_player::{Board, Detail, Stop, run};
use acc_schedule::Locked;
use std::alloc::{AllocError, Global};

/// A machine with its calls, and the board of their places.
#[derive(Drop)]
pub struct Played<'a> {
    pub player: Locked<'a>,
    pub board: Board,
}

/// Lets the places of a board take their turns in the order, of which it keeps the marks, and ends them.
fn run_places(
    alloc: Global,
    player: &mut Locked,
    board: &mut Board,
    d: &Design,
    order: &[u64],
) -> Result<(), AllocError>
    requires design { player.old.design ≡ d.now }
    requires board { length board.old.numbers.items ≡ length player.old.calls }
    requires places { All (IsPlace (length player.old.calls)) order.now }
    requires text { board.old.text.items ≡ [] }
    ensures runs { OnOk result (IsRun (with_locks d.now) (mention_text Marks d.now) player.old.calls
        (play_of player.old.world board.old) order.now board.new.text.items (play_of player.new.world board.new)) }
    ensures full { OnOk result ((at : ℕ) → IsUnbegun at board.new → MOST_EVENTS ≤ length player.new.world.events) }
    ensures over { OnOk result (unfinished player.new.world ≡ []) }
    ensures design { player.new.design ≡ player.old.design }
{
    match run(alloc, player, board, d, Detail::Marks, order) {
        Ok(()) => Ok(()),
        Err(Stop::Memory) => Err(AllocError),
        // such a player has no disk
        Err(Stop::Disk) => unreachable!(),
    }
}

/// The machine of an accepted design before any event, with the calls of a load.
fn open_load<'a>(
    alloc: Global,
    accepted: &'a Accepted,
    load: &'a [Call],
) -> Result<Played<'a>, AllocError>
    requires fit { AllFit accepted.now load.now }
    ensures { IfOk result (IsOpened accepted.now load.now) }
{
    let Ok(store) = IndexStore::of(alloc, accepted.design()) else {
        return Err(AllocError);
    };
    let Ok(state) = State::new(alloc, accepted, store) else {
        return Err(AllocError);
    };
    let board = Board::open(alloc, load.len(), 0)?;
    Ok(Played {
        player: Locked { state, calls: load },
        board,
    })
}

/// Runs the calls of a load from the start: each is begun and turned to its end, one after the other.
pub fn run_load<'a>(
    alloc: Global,
    accepted: &'a Accepted,
    load: &'a [Call],
) -> Result<Played<'a>, AllocError>
    requires fit { AllFit accepted.now load.now }
    ensures { IfOk result (IsLoad accepted.now load.now) }
{
    let Played { player, board } = open_load(alloc, accepted, load)?;
    let mut player = player;
    let mut board = board;
    run_places(alloc, &mut player, &mut board, accepted.design(), &[])?;
    Ok(Played { player, board })
}

/// The machine that a load left, with the calls of a mix, none of which has begun.
fn open_mix<'a>(
    alloc: Global,
    player: Locked<'a>,
    board: Board,
    mix: &'a [Call],
) -> Result<Played<'a>, AllocError>
    requires fit { AllFit player.design mix.now }
    ensures { IfOk result (IsBehind player.entry board mix.now) }
{
    let Locked { state, calls: _ } = player;
    let board = Board {
        numbers: vec![in alloc; None; mix.len()]?,
        places: board.places,
        text: Vec::new(alloc),
    };
    Ok(Played {
        player: Locked { state, calls: mix },
        board,
    })
}

/// Runs the calls of a mix behind a load: they take their turns in the order, and are ended.
pub fn run_mix<'a>(
    alloc: Global,
    loaded: Played<'a>,
    d: &Design,
    mix: &'a [Call],
    order: &[u64],
) -> Result<Played<'a>, AllocError>
    requires design { loaded.player.design ≡ d.now }
    requires fit { AllFit d.now mix.now }
    requires places { All (IsPlace (length mix.now)) order.now }
    ensures { IfOk result (IsMix d.now mix.now order.now (play_of loaded.entry.player.world loaded.entry.board)) }
{
    let Played { player, board } = loaded;
    let Played { player, board } = open_mix(alloc, player, board, mix)?;
    let mut player = player;
    let mut board = board;
    run_places(alloc, &mut player, &mut board, d, order)?;
    Ok(Played { player, board })
}
