//! Turns among the events of a tail.
ghost use Rattle.std.specs.Prelude.{◌≡◌};
ghost use Rattle.std.specs.List.{list_any};
ghost use Rattle.acc_engine.specs.Acks.{is_turn_of};

use acc_base::machines::Event;

// Whether an event is a turn of that transaction.
fn is_turn(event: &Event, t: u64) -> bool
    ensures { result ≡ is_turn_of t event.now }
{
    match event {
        Event::Begin(_) => false,
        Event::Step(u) => *u == t,
        Event::Abort(u, _) => *u == t,
        Event::Undo(u) => *u == t,
    }
}

/// Whether one of the events is a turn of that transaction.
pub fn has_turn(events: &[Event], t: u64) -> bool
    ensures { result ≡ list_any (is_turn_of t) events.now }
{
    for event in events {
        if is_turn(event, t) {
            return true;
        }
    }
    false
}
