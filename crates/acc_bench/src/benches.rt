//! A load and a mix, from the start to the conditions at the end.
ghost use Rattle.std.specs.Prelude.{◌≡◌, [], length, All, IfOk};
ghost use Rattle.acc_base.specs.Machine.{unfinished};
ghost use Rattle.acc_script.specs.OrderLines.{IsPlace};
ghost use Rattle.acc_player.specs.Boards.{play_of};
ghost use Rattle.acc_player.specs.Playing.{AllFit};
ghost use Rattle.tpcc_tables.specs.Schema.{IsSchemaOf};
ghost use Rattle.acc_bench.specs.Runs.{LeavesIfFull};
ghost use Rattle.acc_bench.specs.Closings.{TellsEnds, IsClosed};
ghost use Rattle.acc_bench.specs.Benches.{TellsLoad, ComesTo, Benches};

use crate::conditions::judge;
use crate::counts::{committed, compensated, marks};
use crate::results::{Benched, FalseCondition, Loaded, Mixed, Ran};
use crate::runs::{Played, run_load, run_mix};
use acc_base::machines::Call;
use acc_index_store::IndexStore;
use acc_lift::Accepted;
use acc_lock_rules::State;
use acc_player::{BLOCKED, Board, VICTIM, all_begun};
use acc_progress::{BenchPart, Progress};
use acc_schedule::Locked;
use std::alloc::{AllocError, Global};
use tpcc_tables::TableSet;

/// What is told of a load that has run.
fn tell_load(player: &Locked, board: &Board, load: &[Call]) -> Loaded
    requires full { LeavesIfFull player.now.world board.now }
    ensures { TellsLoad load.now (play_of player.now.world board.now) result }
{
    Loaded {
        places: load.len() as u64,
        events: player.state.events().len() as u64,
        all_begun: all_begun(&board.numbers),
    }
}

/// What is told of a mix that has run, by its replies and the marks of its turns.
fn tell_mix(state: &State<IndexStore>, board: &Board) -> Mixed
    requires full { LeavesIfFull state.now.world board.now }
    ensures { TellsEnds state.now.world board.now result }
{
    Mixed {
        committed: committed(state, &board.numbers),
        compensated: compensated(state, &board.numbers),
        blocked: marks(&board.text, BLOCKED),
        victims: marks(&board.text, VICTIM),
        all_begun: all_begun(&board.numbers),
    }
}

/// Tells of a mix that has run, behind what is told of its load.
fn close<'a>(loaded: Loaded, player: Locked<'a>, board: Board) -> Ran<'a>
    requires over { unfinished player.world ≡ [] }
    requires full { LeavesIfFull player.world board }
    ensures { IsClosed loaded player.entry board result }
{
    let Locked { state, calls: _ } = player;
    let _events = state.events();
    let mixed = tell_mix(&state, &board);
    Ran {
        loaded,
        mixed,
        state,
    }
}

/// Runs a load and then a mix, in memory, on the machine of an accepted design by the rules of locks. The load's calls are each begun and
/// turned to their end, one after the other. Then the mix's calls take their turns in the order: each number names a call of the mix by
/// its place from 1, which begins at its first mention and takes a turn at each. Then what is unfinished is ended, in passes in which each
/// takes a turn; and then each place of the mix that hasn't begun is begun and ended, in the order of the calls.
///
/// It tells how many events there were after the load, how the mix's calls ended and what its turns in the order came to, and hands back
/// the state at the end. Its one error is want of memory.
pub fn load_and_mix<'a, P: Progress>(
    alloc: Global,
    accepted: &'a Accepted,
    load: &'a [Call],
    mix: &'a [Call],
    order: &[u64],
    progress: &mut P,
) -> Result<Ran<'a>, AllocError>
    requires load_fits { AllFit accepted.now load.now }
    requires mix_fits { AllFit accepted.now mix.now }
    requires places { All (IsPlace (length mix.now)) order.now }
    ensures comes { IfOk result (λ r. ComesTo accepted.now load.now mix.now order.now r.loaded r.mixed r.state.world) }
    ensures design { IfOk result (λ r. r.state.design ≡ accepted.now) }
{
    progress.began(BenchPart::Load);
    let played = run_load(alloc, accepted, load)?;
    progress.began(BenchPart::Mix);
    let loaded = tell_load(&played.player, &played.board, load);
    let Played { player, board } = run_mix(alloc, played, accepted.design(), mix, order)?;
    Ok(close(loaded, player, board))
}

/// What comes of a load and a mix, with the lowest condition that is false at the end.
fn benched(ran: Ran, against: Option<FalseCondition>) -> Benched
    ensures parts { (result.loaded ≡ ran.entry.loaded) × (result.mixed ≡ ran.entry.mixed) × (result.against ≡ against) }
    ensures history { result.history ≡ ran.entry.state.world.events }
{
    let Ran {
        loaded,
        mixed,
        state,
    } = ran;
    let (_, history) = state.into_parts();
    Benched {
        loaded,
        mixed,
        history,
        against,
    }
}

/// Runs a load and then a mix, as `load_and_mix` does, and tries the consistency conditions of TPC-C on the rows at the end. The set has
/// the numbers of the schema's tables in the design.
///
/// It tells besides all events, and the lowest condition that is false. Its one error is want of memory.
pub fn bench<P: Progress>(
    alloc: Global,
    accepted: &Accepted,
    tables: &TableSet,
    load: &[Call],
    mix: &[Call],
    order: &[u64],
    progress: &mut P,
) -> Result<Benched, AllocError>
    requires schema { IsSchemaOf tables.now accepted.now }
    requires load_fits { AllFit accepted.now load.now }
    requires mix_fits { AllFit accepted.now mix.now }
    requires places { All (IsPlace (length mix.now)) order.now }
    ensures { IfOk result (Benches tables.now accepted.now load.now mix.now order.now) }
{
    let ran = load_and_mix(alloc, accepted, load, mix, order, progress)?;
    progress.began(BenchPart::Conditions);
    let against = judge(alloc, tables, &ran.state)?;
    Ok(benched(ran, against))
}
