//! An engine, each of whose ends is made durable before the next turn.
ghost use Rattle.std.specs.Prelude.{◌≡◌};

use crate::sealing::seal;
use crate::turns::{begin, settle, take};
use acc_base::machines::{Frame, Reply, Turn};
use acc_disk::Disk;
use acc_engine::Engine;
use acc_player::{Ender, Player, Stop};
use acc_store::Store;
use std::alloc::Global;
use std::marker::Model;

/// An engine as a player, which makes each end durable before its next turn. Contracts see the engine; its type keeps what an engine
/// keeps.
#[derive(Drop)]
pub struct Settling<'a, S: Store, D: Disk> {
    pub engine: Engine<'a, S, D>,
}

impl<'a, S: Store, D: Disk> Model for Settling<'a, S, D> {
    ghost use Rattle.acc_engine.specs.Keeping.{Journalled};
    ghost use Rattle.acc_engine.specs.Standing.{IsSound};

    ghost Value = { Journalled D };

    ghost view = { λ p. p.engine };

    ghost invariant = { λ p. IsSound D.told p.engine };
}

impl<'a, S: Store, D: Disk> Settling<'a, S, D> {
    ghost use Rattle.std.specs.Prelude.{◌≡◌, [], length, false, None, Some, IfErr, OnOk};
    ghost use Rattle.acc_base.specs.Machine.{unfinished};
    ghost use Rattle.acc_engine.specs.Sealing.{EndsSealed};
    ghost use Rattle.acc_settling.specs.Growth.{HasGrown};
    ghost use Rattle.acc_settling.specs.Leaving.{LeavesEngine};
    ghost use Rattle.acc_settling.specs.Runs.{IsAcked, IsAckedButOne};

    /// Makes the history durable, all of it. It takes no memory.
    pub fn settle(&mut self) -> Result<(), Stop>
        requires unfailed { self.old.failed ≡ false }
        ensures state { self.new.state ≡ self.old.state }
        ensures design { self.new.design ≡ self.old.design }
        ensures calls { self.new.calls ≡ self.old.calls }
        ensures begun { self.new.begun ≡ self.old.begun }
        ensures all { OnOk result ((self.new.settled ≡ length self.new.state.events) × IsAcked self.new) }
        ensures one { IsAckedButOne self.old → IsAckedButOne self.new }
        ensures done { OnOk result (LeavesEngine D.clock D.left_since D.told D.may_leave D.faults None self.old self.new) }
        ensures stops { IfErr result (λ stop. LeavesEngine D.clock D.left_since D.told D.may_leave D.faults (Some stop) self.old self.new) }
    {
        settle(&mut self.engine)
    }

    /// Where the history grew, puts the text of all rows behind its last event, and makes that durable too. `grew` says whether it grew
    /// before the engine was made.
    pub fn seal(&mut self, alloc: Global, grew: bool) -> Result<(), Stop>
        requires idle { unfinished self.old.state ≡ [] }
        requires quiet { self.old.waiting ≡ [] }
        requires unfailed { self.old.failed ≡ false }
        requires all { self.old.settled ≡ length self.old.state.events }
        ensures state { self.new.state ≡ self.old.state }
        ensures design { self.new.design ≡ self.old.design }
        ensures calls { self.new.calls ≡ self.old.calls }
        ensures begun { self.new.begun ≡ self.old.begun }
        ensures all { self.new.settled ≡ length self.new.state.events }
        ensures sealed { OnOk result (HasGrown grew self.new → EndsSealed self.new) }
        ensures done { OnOk result (LeavesEngine D.clock D.left_since D.told D.may_leave D.faults None self.old self.new) }
        ensures stops { IfErr result (λ stop. LeavesEngine D.clock D.left_since D.told D.may_leave D.faults (Some stop) self.old self.new) }
    {
        seal(alloc, &mut self.engine, grew)
    }
}

impl<'a, S: Store, D: Disk> Player for Settling<'a, S, D> {
    ghost use Rattle.std.specs.Prelude.{◌≡◌, false};
    ghost use Rattle.acc_lock_rules.specs.LockRules.{with_locks};
    ghost use Rattle.acc_lock_rules.proofs.Orderly.{locks_are_orderly};
    ghost use Rattle.acc_settling.specs.Leaving.{LeavesEngine, leaves_none, leaves_ready, leaves_more, leaves_want};
    ghost use Rattle.acc_settling.specs.Openings.{CanBegin};

    ghost design = { λ p. p.design };

    ghost rules = { with_locks };

    ghost world = { λ p. p.state };

    ghost calls = { λ p. p.calls };

    ghost ready = { λ p. p.failed ≡ false };

    ghost can_begin = { λ p at. CanBegin p at };

    ghost leaves = { λ why p q. LeavesEngine D.clock D.left_since D.told D.may_leave D.faults why p q };

    fn begin_at(&mut self, place: u64) -> Result<Option<u64>, Stop> {
        begin(&mut self.engine, place)
    }

    fn turn(&mut self, t: u64) -> Result<Option<Turn>, Stop> {
        let turn = take(&mut self.engine, t)?;
        Ok(Some(turn))
    }

    fn is_unfinished(&self, t: u64) -> bool {
        self.engine.state().is_unfinished(t)
    }

    fn reply(&self, t: u64) -> Option<&Reply> {
        self.engine.state().reply(t)
    }

    ghost orderly = { locks_are_orderly };

    ghost leaves_none = { λ p r. leaves_none D.clock D.left_since D.told D.may_leave D.faults D.only_now p r };

    ghost leaves_ready = { λ p q a. leaves_ready D.clock D.left_since D.told D.may_leave D.faults p q a };

    ghost leaves_more = { λ why p q r a b. leaves_more D.clock D.left_since D.told D.may_leave D.faults D.only_now why p q r a b };

    ghost leaves_want = { λ p q a. leaves_want D.clock D.left_since D.told D.may_leave D.faults p q a };
}

impl<'a, S: Store, D: Disk> Ender for Settling<'a, S, D> {
    ghost use Rattle.acc_lock_rules.proofs.Living.{locks_full};

    fn unfinished(&self) -> &[Frame] {
        self.engine.state().unfinished()
    }

    ghost full = { locks_full };
}
