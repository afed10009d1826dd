//! The plain machine as a player.
ghost use Rattle.std.specs.Prelude.{◌≡◌};

use acc_base::machines::{Call, Reply, Turn};
use acc_plain::{Machine, PlainError};
use acc_player::{Player, Stop};
use acc_store::MapStore;
use std::marker::Model;

/// The most events of a play. An order that is read from a text has 2^20 mentions at most, each of two events at most.
const MANY: usize = 1 << 29;

/// The plain machine with the calls of a script. Contracts see the design, the state and the calls; its type keeps that each call fits
/// its type.
#[derive(Drop)]
pub struct Plain<'a> {
    pub machine: Machine<'a, MapStore>,
    pub calls: &'a [Call],
}

impl<'a> Model for Plain<'a> {
    ghost use Rattle.acc_player.specs.Playing.{Playing, playing, HasFit};

    ghost Value = { Playing };

    ghost view = { λ p. playing p.machine p.calls.now };

    ghost invariant = { λ p. HasFit (playing p.machine p.calls.now) };
}

impl<'a> Player for Plain<'a> {
    ghost use Rattle.std.specs.Prelude.{◌≡◌, IfSome};
    ghost use Rattle.std.proofs.Common.{refl};
    ghost use Rattle.acc_base.specs.Plays.{plain};
    ghost use Rattle.acc_player.specs.declared.stops.Stop.TheVariants.{Memory};
    ghost use Rattle.acc_player.proofs.Orderly.{plain_is_orderly};

    ghost design = { λ p. p.design };

    ghost rules = { plain };

    ghost world = { λ p. p.world };

    ghost calls = { λ p. p.calls };

    ghost ready = { λ p. Unit {0} };

    ghost can_begin = { λ p at. Unit {0} };

    ghost leaves = { λ why p q. IfSome why (λ stop. stop ≡ Memory) };

    fn begin_at(&mut self, place: u64) -> Result<Option<u64>, Stop> {
        if self.machine.events().len() >= MANY {
            return Err(Stop::Memory);
        }
        let calls = self.calls;
        match self.machine.begin(&calls[(place - 1) as usize]) {
            Ok(t) => Ok(Some(t)),
            Err(PlainError::Memory) => Err(Stop::Memory),
        }
    }

    fn turn(&mut self, t: u64) -> Result<Option<Turn>, Stop> {
        if self.machine.events().len() >= MANY {
            return Err(Stop::Memory);
        }
        match self.machine.turn(t) {
            Ok(turn) => Ok(turn),
            Err(PlainError::Memory) => Err(Stop::Memory),
        }
    }

    fn is_unfinished(&self, t: u64) -> bool {
        self.machine.is_unfinished(t)
    }

    fn reply(&self, t: u64) -> Option<&Reply> {
        self.machine.reply(t)
    }

    ghost orderly = { plain_is_orderly };

    ghost leaves_none = { λ p r. tt };

    ghost leaves_ready = { λ p q a. tt };

    ghost leaves_more = { λ why p q r a b. b };

    ghost leaves_want = { λ p q a. refl };
}
