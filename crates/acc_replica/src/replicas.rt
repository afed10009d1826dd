//! The replica itself.
ghost use Rattle.std.specs.Prelude.{◌≡◌, ◌++◌, [], ℕ, List, length, Some, Err, IfOk, IfErr, OnOk, OnErr};
ghost use Rattle.acc_base.specs.Tables.{column_of};
ghost use Rattle.acc_base.specs.Machine.{unfinished, world};
ghost use Rattle.acc_base.specs.Annotated.{IsAnnotated, IsIdle};
ghost use Rattle.acc_base.specs.Invariant.{IsGood};
ghost use Rattle.acc_print.specs.Designs.{printed};
ghost use Rattle.acc_wal.specs.Items.{events_of};
ghost use Rattle.acc_base.specs.declared.machines.Event.{Event as TheEvent};
ghost use Rattle.acc_wal.specs.declared.items.Item.{Item};
ghost use Rattle.acc_stream.specs.Streams.{AreWhole};
ghost use Rattle.acc_replica.specs.declared.errors.ReplicaError.{ReplicaError as TheError};
ghost use Rattle.acc_replica.specs.declared.errors.ReplicaError.TheVariants.{Memory};
ghost use Rattle.acc_replica.specs.Replicas.{Follows, Advances, TellsEnd, told_last, IsFresh};

use crate::advancing::{Step, do_next};
use crate::errors::{Advanced, ReplicaError};
use acc_base::tables::Plain;
use acc_lift::Accepted;
use acc_machine::{State, StateError};
use acc_print::{PrintError, print};
use acc_store::{Store, StoreError};
use acc_stream::{Stream, StreamError};
use std::alloc::Global;
use std::marker::Model;

/// A replica of an accepted design: it is fed the bytes of a journal, and does the events of the batches that came whole, one a call.
///
/// Contracts speak of all the bytes that were fed, and see the design, the state after the events that are done, the stream with the items
/// that wait, and the refusal, if there was one. For whatever bytes, pieces and order of calls: the events that are done are the first of
/// the whole batches' events, and the rows are those after them.
#[derive(Drop)]
pub struct Replica<'a, S: Store> {
    alloc: Global,
    stream: Stream,
    state: State<'a, S>,
    refused: Option<ReplicaError>,
}

impl<'a, S: Store> Model for Replica<'a, S> {
    ghost use Rattle.std.specs.Prelude.{◌≢◌, Some};
    ghost use Rattle.acc_replica.specs.declared.errors.ReplicaError.TheVariants.{Memory};
    ghost use Rattle.acc_replica.specs.Replicas.{Replicated};

    ghost Value = { Replicated };

    ghost view = { λ r. record { design = r.state.design; world = r.state.world; stream = r.stream; refused = r.refused } };

    ghost invariant = { λ r. r.refused ≢ Some Memory };
}

impl<'a, S: Store> Replica<'a, S> {
    /// A replica to which nothing was fed, over an empty store. Where memory runs out the store is handed back, still empty.
    pub fn new(alloc: Global, d: &'a Accepted, s: S) -> Result<Self, (ReplicaError, S)>
        requires empty { S.rows s ≡ [] }
        ensures design { IfOk result (λ r. r.design ≡ d.now) }
        ensures fresh { IfOk result IsFresh }
        ensures follows { IfOk result (Follows []) }
        ensures why { IfErr result (λ refusal. refusal.0 ≡ Memory) }
        ensures store { IfErr result (λ refusal. S.rows refusal.1 ≡ []) }
    {
        let text = match print(alloc, d.design()) {
            Ok(text) => text,
            Err(PrintError::Memory) => return Err((ReplicaError::Memory, s)),
        };
        match State::new(alloc, d, s) {
            Ok(state) => Ok(Replica {
                alloc,
                stream: Stream::new(alloc, text),
                state,
                refused: None,
            }),
            Err((StateError::Memory, s)) => Err((ReplicaError::Memory, s)),
        }
    }

    /// Feeds the next piece of the journal's bytes. `Memory` is its only error.
    ///
    /// It takes time and memory with the length of the piece and of the batches that came whole by it.
    pub fn feed(&mut self, piece: &[u8]) -> Result<(), ReplicaError>
        ensures follows { (fed : List ℕ) → Follows fed self.old → OnOk result (Follows (fed ++ piece.now) self.new) }
        ensures same { (self.new.design ≡ self.old.design) × (self.new.world ≡ self.old.world) × (self.new.refused ≡ self.old.refused) }
        ensures err { OnErr result (self.new ≡ self.old) }
        ensures why { IfErr result (λ error. error ≡ Memory) }
    {
        if let Err(StreamError::Memory) = self.stream.feed(piece) {
            return Err(ReplicaError::Memory);
        }
        Ok(())
    }

    /// Does the next item of the whole batches: an event, or the comparison of a state. `NotYet` comes exactly where all of them are done
    /// and nothing is refused.
    ///
    /// It refuses with what is first in the stream: `NotJournal`, `OtherVersion`, `OtherDesign`, `Damaged`, `Past`, `Unlawful` or
    /// `Differs`. Behind such a refusal it answers the same for ever, whatever is fed. Behind `Memory` it may be called again.
    pub fn advance(&mut self) -> Result<Advanced, ReplicaError>
        ensures follows { (fed : List ℕ) → Follows fed self.old → Follows fed self.new }
        ensures told { Advances self.old self.new result }
        ensures ends { (fed : List ℕ) → Follows fed self.old → TellsEnd self.old.design fed result self.old.world }
        ensures refused { (error : TheError) → self.old.refused ≡ Some error → (result ≡ Err error) × (self.new ≡ self.old) }
        ensures design { self.new.design ≡ self.old.design }
    {
        if let Some(error) = self.refused {
            return Err(error);
        }
        match do_next(self.alloc, &mut self.state, &self.stream) {
            Step::Passed(told) => {
                self.stream.skip();
                Ok(told)
            }
            Step::NotYet => Ok(Advanced::NotYet),
            Step::Refused(error) => {
                self.refused = Some(error);
                Err(error)
            }
            Step::Lacks => Err(ReplicaError::Memory),
        }
    }

    /// Advances until nothing more comes, or until it is refused.
    pub fn advance_all(&mut self) -> Result<(), ReplicaError>
        ensures follows { (fed : List ℕ) → Follows fed self.old → Follows fed self.new }
        ensures ends { (fed : List ℕ) → Follows fed self.old → TellsEnd self.old.design fed (told_last result) self.new.world }
        ensures refused { (error : TheError) → self.old.refused ≡ Some error → (result ≡ Err error) × (self.new ≡ self.old) }
        ensures design { self.new.design ≡ self.old.design }
    {
        loop {
            match self.advance()? {
                Advanced::Event | Advanced::Seal => {}
                Advanced::NotYet => return Ok(()),
            }
        }
    }
}

impl<'a, S: Store> Replica<'a, S> {
    /// How many events the whole batches have, up to the first that isn't spelled as a batch. It takes no memory.
    pub fn settled(&self) -> u64
        ensures { (fed : List ℕ) → Follows fed self.now → (items : List Item) → AreWhole (printed self.now.design) fed items
            → result ≡ length (events_of items) }
    {
        self.state.events().len() as u64 + self.stream.events() as u64
    }

    /// How many events are done. They are the first of the whole batches' events, they are lawful and lead to this state, and they are
    /// annotated: as each of them came, the assertion of each unfinished transaction was true. It takes no memory.
    pub fn done(&self) -> u64
        ensures done { result ≡ length self.now.world.events }
        ensures first { (fed : List ℕ) → Follows fed self.now → (items : List Item) → AreWhole (printed self.now.design) fed items
            → (rest : List TheEvent) × (events_of items ≡ self.now.world.events ++ rest) }
        ensures run { world self.now.design self.now.world.events ≡ Some self.now.world }
        ensures good { IsGood self.now.design self.now.world }
        ensures annotated { IsAnnotated self.now.design self.now.world.events }
    {
        self.state.events().len() as u64
    }

    /// How many transactions have begun and haven't ended. Where there are none, the rows are idle: what is asserted for all times is true
    /// of them, and none of them is private. It takes no memory.
    pub fn unfinished(&self) -> u64
        ensures unfinished { result ≡ length (unfinished self.now.world) }
        ensures idle { unfinished self.now.world ≡ [] → IsIdle self.now.design self.now.world.rows }
    {
        self.state.unfinished().len() as u64
    }

    /// A column of the row with this key, counted from 0. It is 0 where the row or the column is absent. It takes no memory.
    pub fn get(&self, table: u32, key: &[i64], col: u32) -> i128
        ensures { result ≡ column_of self.now.world.rows table key.now col }
    {
        self.state.store().get(table, key, col)
    }

    /// The rows, kept in the store. It takes no memory.
    pub fn store(&self) -> &S
        ensures { S.rows result.now ≡ self.now.world.rows }
    {
        self.state.store()
    }

    /// The rows, by table and then key. `Memory` is its only error.
    pub fn rows(&self) -> Result<Plain, ReplicaError>
        ensures rows { IfOk result (λ plain. plain.rows ≡ self.now.world.rows) }
        ensures why { IfErr result (λ error. error ≡ Memory) }
    {
        match self.state.store().rows(self.alloc) {
            Ok(plain) => Ok(plain),
            Err(StoreError::Memory) => Err(ReplicaError::Memory),
        }
    }
}
