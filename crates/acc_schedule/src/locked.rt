//! The machine with locks, with the calls of a script.
ghost use Rattle.std.specs.Prelude.{◌≡◌};

use acc_base::machines::{Call, Frame, Reply, Turn};
use acc_index_store::IndexStore;
use acc_lock_rules::{BeginError, State, TurnError};
use acc_player::{Ender, Player, Stop};
use std::marker::Model;

/// A state of an accepted design with the calls of a script. Contracts see the design, the state and the calls; its type keeps that
/// each call fits its type.
#[derive(Drop)]
pub struct Locked<'a> {
    pub state: State<'a, IndexStore>,
    pub calls: &'a [Call],
}

impl<'a> Model for Locked<'a> {
    ghost use Rattle.acc_player.specs.Playing.{Playing, playing, HasFit};

    ghost Value = { Playing };

    ghost view = { λ p. playing p.state p.calls.now };

    ghost invariant = { λ p. HasFit (playing p.state p.calls.now) };
}

impl<'a> Player for Locked<'a> {
    ghost use Rattle.std.specs.Prelude.{◌≡◌, IfSome};
    ghost use Rattle.std.proofs.Common.{refl};
    ghost use Rattle.acc_lock_rules.specs.LockRules.{with_locks};
    ghost use Rattle.acc_player.specs.declared.stops.Stop.TheVariants.{Memory};
    ghost use Rattle.acc_lock_rules.proofs.Orderly.{locks_are_orderly};

    ghost design = { λ p. p.design };

    ghost rules = { with_locks };

    ghost world = { λ p. p.world };

    ghost calls = { λ p. p.calls };

    ghost ready = { λ p. Unit {0} };

    ghost can_begin = { λ p at. Unit {0} };

    ghost leaves = { λ why p q. IfSome why (λ stop. stop ≡ Memory) };

    fn begin_at(&mut self, place: u64) -> Result<Option<u64>, Stop> {
        let calls = self.calls;
        let t = match self.state.begin(&calls[(place - 1) as usize]) {
            Ok(t) => t,
            Err(BeginError::Full) => return Ok(None),
            Err(BeginError::Crowd) => return Ok(None),
            Err(BeginError::Memory) => return Err(Stop::Memory),
        };
        Ok(Some(t))
    }

    fn turn(&mut self, t: u64) -> Result<Option<Turn>, Stop> {
        match self.state.turn(t) {
            Ok(turn) => Ok(Some(turn)),
            Err(TurnError::Memory) => Err(Stop::Memory),
        }
    }

    fn is_unfinished(&self, t: u64) -> bool {
        self.state.is_unfinished(t)
    }

    fn reply(&self, t: u64) -> Option<&Reply> {
        self.state.reply(t)
    }

    ghost orderly = { locks_are_orderly };

    ghost leaves_none = { λ p r. tt };

    ghost leaves_ready = { λ p q a. tt };

    ghost leaves_more = { λ why p q r a b. b };

    ghost leaves_want = { λ p q a. refl };
}

impl<'a> Ender for Locked<'a> {
    ghost use Rattle.acc_lock_rules.proofs.Living.{locks_full};

    fn unfinished(&self) -> &[Frame] {
        let _events = self.state.events();
        self.state.unfinished()
    }

    ghost full = { locks_full };
}
