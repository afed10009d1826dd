// One item of a stream, done by the machine.
ghost use Rattle.std.specs.Prelude.{◌≡◌};
ghost use Rattle.acc_wal.specs.declared.items.Item.TheVariants.{State as TheState};
ghost use Rattle.acc_replica.specs.Steps.{DoesItem, DoesNext, error_for};

use crate::errors::{Advanced, ReplicaError};
use acc_machine::{State, TakeError};
use acc_recover::is_text_of;
use acc_store::Store;
use acc_stream::{Fault, Stream};
use acc_wal::Item;
use std::alloc::Global;

/// What comes of the next item.
#[derive(Clone, Copy)]
pub enum Step {
    /// It was done.
    Passed(Advanced),
    /// There is none.
    NotYet,
    /// It can't be done, or a fault stands in its place.
    Refused(ReplicaError),
    /// Memory ran out.
    Lacks,
}

// A stream's fault, in a replica's words.
fn error_of(fault: Fault) -> ReplicaError
    ensures { result ≡ error_for fault }
{
    match fault {
        Fault::NotJournal => ReplicaError::NotJournal,
        Fault::OtherVersion(version) => ReplicaError::OtherVersion(version),
        Fault::OtherBase => ReplicaError::OtherDesign,
        Fault::Damaged(place) => ReplicaError::Damaged(place),
        Fault::Past(place) => ReplicaError::Past(place),
    }
}

// Compares a state's text with the rows.
fn compare<S: Store>(alloc: Global, state: &State<S>, text: &[u8]) -> Step
    ensures { DoesItem state.now state.now (TheState text.now) result }
{
    let place = state.events().len() as u64;
    match is_text_of(alloc, state, text) {
        Ok(true) => Step::Passed(Advanced::Seal),
        Ok(false) => Step::Refused(ReplicaError::Differs(place)),
        Err(_) => Step::Lacks,
    }
}

// Does an item: an event comes, and a state is compared.
fn do_item<S: Store>(alloc: Global, state: &mut State<S>, item: &Item) -> Step
    ensures { DoesItem state.old state.new item.now result }
{
    match item {
        Item::Event(event) => match state.take(event) {
            Ok(()) => Step::Passed(Advanced::Event),
            Err(TakeError::Unlawful) => {
                Step::Refused(ReplicaError::Unlawful(state.events().len() as u64))
            }
            Err(TakeError::Memory) => Step::Lacks,
        },
        Item::State(text) => compare(alloc, state, text.as_slice()),
    }
}

/// Does the item that comes next, where one waits; else the stream's fault is told, if there is one.
pub fn do_next<S: Store>(alloc: Global, state: &mut State<S>, stream: &Stream) -> Step
    ensures { DoesNext state.old state.new stream.now result }
{
    match stream.item() {
        Some(item) => do_item(alloc, state, item),
        None => match stream.ended() {
            Some(fault) => Step::Refused(error_of(fault)),
            None => Step::NotYet,
        },
    }
}
