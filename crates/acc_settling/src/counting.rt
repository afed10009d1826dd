//! How many transactions an engine has.
ghost use Rattle.std.specs.Prelude.{◌≡◌, count_by, length};
ghost use Rattle.acc_settling.specs.Openings.{is_begin};

use acc_base::machines::Event;
use acc_disk::Disk;
use acc_engine::Engine;
use acc_store::Store;

// Whether an event begins a call.
fn is_begin(event: &Event) -> bool
    ensures { result ≡ is_begin event.now }
{
    match event {
        Event::Begin(_) => true,
        Event::Step(_) | Event::Abort(_, _) | Event::Undo(_) => false,
    }
}

// How many of the events are begins.
fn begins(events: &[Event]) -> usize
    ensures { result ≡ count_by is_begin events.now }
{
    events.iter().filter(|event| is_begin(event)).count()
}

/// How many transactions there are: those that were there when the engine was made, and those that its places began.
pub fn transactions<S: Store, D: Disk>(engine: &Engine<S, D>) -> usize
    ensures { result ≡ length engine.now.state.transactions }
{
    begins(engine.state().events().as_slice())
}
