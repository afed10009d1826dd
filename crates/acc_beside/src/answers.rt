//! The last event of a history, for the keeper's pass.
ghost use Rattle.std.specs.Prelude.{◌≡◌, ◌<◌, ◌^◌, ◌++◌, [], ◌∷◌, length, true};
ghost use Rattle.acc_base.specs.declared.machines.Event.{Event as TheEvent};
ghost use Rattle.acc_pass.specs.Rules.{known};
ghost use Rattle.acc_beside.specs.Calls.{IsNext};

use acc_base::machines::Event;
use acc_base::sequences::Seq;
use acc_pass::{Pass, Passes, Room};

/// Tells the table of the history's last event. It takes no memory.
pub fn append_last<B: Room>(passes: &Passes<B>, events: &Seq<Event>, joined: Pass<B>) -> Pass<B>
    requires mark { joined.keeps ≡ true }
    requires room { length joined.seen < 2 ^ 62 }
    requires next { IsNext joined.seen joined.mine events.now }
    ensures { (event : TheEvent) → events.now ≡ joined.seen ++ event ∷ []
        → result ≡ known true joined.broken events.now (joined.mine ++ (length joined.seen, event) ∷ []) }
{
    match events.as_slice().last() {
        Some(event) => passes.append(joined, event),
        None => unreachable!(),
    }
}
