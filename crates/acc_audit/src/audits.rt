//! The audit of a list of events.
ghost use Rattle.std.specs.Prelude.{◌≡◌, ◌<◌, ◌^◌, length, [], IfOk};
ghost use Rattle.acc_base.specs.Machine.{start};
ghost use Rattle.acc_formed.specs.WellFormed.{IsWellFormed};
ghost use Rattle.acc_audit.specs.Audits.{Tells, TellsMeaning, IsKindToSound};

use crate::steps::{AuditError, AuditFinding, take_event};
use crate::totals::totals_read;
use acc_audit_ranges::KeyedStore;
use acc_base::designs::Design;
use acc_base::machines::Event;
use acc_index_store::IndexStore;
use acc_plain::Machine;
use acc_progress::Progress;
use acc_store::{Store, StoreError};
use std::alloc::Global;

/// A store without rows that keeps the totals that clauses of a design read, and knows the keys of its rows.
fn store_for(alloc: Global, d: &Design) -> Result<KeyedStore<IndexStore>, StoreError>
    ensures { IfOk result (λ s. s ≡ []) }
{
    let kept = totals_read(alloc, d)?;
    let rows = IndexStore::keeping(alloc, kept.as_slice())?;
    Ok(KeyedStore::new(alloc, rows))
}

/// Goes through events on a machine that has done none. How far it is, is told behind each.
fn walk<S: Store, P: Progress>(
    alloc: Global,
    d: &Design,
    machine: &mut Machine<'_, KeyedStore<S>>,
    events: &[Event],
    progress: &mut P,
) -> Result<AuditFinding, AuditError>
    requires formed { IsWellFormed d.now }
    requires few { length events.now < 2 ^ 30 }
    requires design { machine.old.design ≡ d.now }
    requires start { machine.old.world ≡ start }
    ensures { Tells d.now events.now result }
{
    for place in 0..events.len() {
        let found = take_event(alloc, d, machine, place as u64, &events[place])?;
        match found {
            Some(finding) => return Ok(finding),
            None => progress.replayed(place as u64 + 1, events.len() as u64),
        }
    }
    Ok(AuditFinding::Clean)
}

/// Judges a list of events: whether they are a run of the plain machine, and whether after each of them every clause that is asserted
/// then is true, as far as values of its ranges can show: first those that are asserted at all times, and then those of the points of
/// the unfinished transactions, by number.
///
/// The lowest place decides, from 1. `Clean` where nothing is found at any. `False` at the first place at which a clause is false, with
/// the first tuple of values that shows it; `Large` where the first clause with which something is wrong has more than 2^20 tuples, or a
/// product or a sum of its trial leaves ±2^120 at a tuple before which none shows it false; `NotRun` where the machine doesn't allow the
/// next event: a victim falls wherever a crash may, and an undo step whose numbers leave the range is no event. `Memory` where memory
/// ran out; it says nothing of the events.
///
/// The design needs no certificate. Where it is sound and the events are lawful, the answer is never `False` or `NotRun`.
///
/// No row is copied. After each event each clause that it can have changed is tried at each tuple of its values: one of a table that it
/// writes, or of the transaction that it began or moved. The sums and the numbers of rows that clauses read are kept, and not added up
/// anew. How far it is, is told.
pub fn audit<P: Progress>(
    alloc: Global,
    d: &Design,
    events: &[Event],
    progress: &mut P,
) -> Result<AuditFinding, AuditError>
    requires formed { IsWellFormed d.now }
    requires few { length events.now < 2 ^ 30 }
    ensures exact { Tells d.now events.now result }
    ensures meaning { TellsMeaning d.now events.now result }
    ensures sound { IsKindToSound d.now events.now result }
{
    let store = store_for(alloc, d)?;
    let mut machine = Machine::new(alloc, d, store);
    walk(alloc, d, &mut machine, events, progress)
}
