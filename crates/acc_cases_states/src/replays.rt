//! Events that are done again.
use acc_base::machines::Event;
use acc_cases_words::events::event;
use acc_lift::Accepted;
use acc_machine::{ReplayError, State, replay};
use acc_progress::Silent;
use acc_store::MapStore;
use std::alloc::{AllocError, Global};
use std::fmt::Write;

/// Pushes the event of an item, if it is one's.
fn push_event(alloc: Global, events: &mut Vec<Event>, item: &str) -> Result<(), AllocError> {
    let words: Vec<&str> = item.split(' ').collect(alloc)?;
    if let Some(event) = event(alloc, words.as_slice())? {
        events.push(event)?;
    }
    Ok(())
}

/// The events of items.
fn events_of(alloc: Global, items: &str) -> Result<Vec<Event>, AllocError> {
    let mut events = Vec::new(alloc);
    for item in items.split("; ") {
        push_event(alloc, &mut events, item)?;
    }
    Ok(events)
}

/// Pushes how many events led to a state.
fn push_count(out: &mut String, state: State<MapStore>) -> Result<(), AllocError> {
    let (_, events) = state.into_parts();
    write!(out, "events {}", events.len())
}

/// Pushes how many events there are after these, or which of them isn't lawful.
fn push_done_again(
    alloc: Global,
    out: &mut String,
    design: &Accepted,
    events: &[Event],
) -> Result<(), AllocError> {
    match replay(alloc, design, MapStore::new(alloc), events, &mut Silent) {
        Ok(state) => push_count(out, state),
        Err((ReplayError::Unlawful(at), _)) => write!(out, "unlawful {at}"),
        Err((ReplayError::Memory, _)) => Err(AllocError),
    }
}

/// Pushes how many events there are after those of the items, or which of them isn't lawful.
pub fn push_replayed(
    alloc: Global,
    out: &mut String,
    design: &Accepted,
    items: &str,
) -> Result<(), AllocError> {
    let events = events_of(alloc, items)?;
    push_done_again(alloc, out, design, events.as_slice())
}
