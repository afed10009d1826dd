//! The machine: transactions that take their turns over a store.
ghost use Rattle.std.specs.Prelude.{◌≡◌, ◌≤◌, ◌<◌, ◌^◌, ◌+◌, ◌-◌, [], ◌∷◌, ◌++◌, length, true, slice_get, slice_set, vec_len, All, Some};
ghost use Rattle.std.specs.Prelude.{None, IfOk, IfSome, OnErr, OnOk, option_copied, option_and_then, option_map, IsNone, IsTrue, ◌↔◌};
ghost use Rattle.std.specs.Prelude.{MatchOption, replicate, pos};
ghost use Rattle.acc_base.specs.Tables.{IsInOrder};
ghost use Rattle.acc_base.specs.Machine.{start, next_number, call_fits, locals_in, begun, transaction_at, frame_in, reply_in, unfinished};
ghost use Rattle.acc_base.specs.Machine.{after_event};
ghost use Rattle.acc_base.specs.Turns.{next_event, said};
ghost use Rattle.acc_base.specs.Runnable.{IsRunnable, IsSmallFrame};
ghost use Rattle.acc_base.specs.declared.machines.Event.TheVariants.{Begin};
ghost use Rattle.acc_base.specs.declared.machines.Event.{Event as TheEvent};
ghost use Rattle.acc_store.specs.Bounds.{AreWithin};
ghost use Rattle.acc_store.specs.Rows.{written, IsNarrow, SumsFit};
ghost use Rattle.acc_base.specs.declared.machines.Transaction.TheVariants.{Forward};
ghost use Rattle.acc_plain.specs.Change.{IsNextChange};
ghost use Rattle.acc_plain.specs.Kept.{transaction_of};
ghost use Rattle.acc_plain.specs.Reached.{IsReached};
ghost use Rattle.acc_plain.specs.Taken.{number_in, IsTaken};
ghost use Rattle.acc_plain.specs.Turned.{cause_in, IsUnfinished, IsTurned, IsOutOfRange};

use crate::changes::{Change, PlainError, forward_change, undo_change};
use crate::fittings::call_fits;
use crate::takes::change_by;
use crate::transactions::{TransactionRef, Transactions};
use acc_base::bounds::LARGEST_SUM;
use acc_base::designs::{Design, Side};
use acc_base::machines::{Call, Cause, Event, Frame, Reply, Turn};
use acc_base::sequences::{Boxed, Seq, copied};
use acc_store::{Store, StoreError, Write};
use std::alloc::{AllocError, Global};
use std::marker::Model;

/// A machine over a design. Contracts see the design and the state after the events so far.
///
/// An unfinished transaction is found in time that grows with the logarithm of how many are unfinished, another in constant
/// time; a turn costs what its step's look-ups and writes cost.
#[derive(Drop)]
pub struct Machine<'a, S: Store> {
    alloc: Global,
    design: &'a Design,
    store: S,
    transactions: Transactions,
    events: Seq<Event>,
}

impl<'a, S: Store> Model for Machine<'a, S> {
    ghost use Rattle.acc_plain.specs.Running.{Running};
    ghost use Rattle.acc_plain.specs.Reached.{IsReached};

    ghost Value = { Running };

    ghost view = { λ m. record {
      design = m.design.now;
      world = record { rows = S.rows m.store; transactions = m.transactions; events = m.events };
    } };

    ghost invariant = { λ m. IsReached m.design.now (record { rows = S.rows m.store; transactions = m.transactions; events = m.events }) };
}

/// How many locals a type has.
fn locals_in(d: &Design, ty: u32) -> usize
    ensures { result ≡ locals_in (slice_get d.now.types ty) }
{
    match d.types.as_slice().get(ty as usize) {
        Some(x) => x.locals.len(),
        None => 0,
    }
}

/// The locals of a transaction as it begins: its parameters, and then zeros.
fn first_locals(alloc: Global, params: &[i64], count: usize) -> Result<Vec<i64>, AllocError>
    ensures { IfOk result (λ v. v.items ≡ params.now ++ replicate (count - length params.now) (pos 0)) }
{
    let mut locals = Vec::from_slice(alloc, params)?;
    locals.resize(count.max(params.len()), 0)?;
    Ok(locals)
}

/// The frame of a call as it begins.
fn first_frame(alloc: Global, d: &Design, t: u64, call: &Call) -> Result<Frame, AllocError>
    ensures { IfOk result (λ f. f ≡ begun d.now t call.now) }
{
    let locals = first_locals(alloc, call.params.as_slice(), locals_in(d, call.ty))?;
    Ok(Frame {
        t,
        ty: call.ty,
        point: 0,
        side: Side::Next,
        locals: Seq::from_vec(locals),
        tape: copied(&call.tape)?,
        pos: 0,
        steps: 0,
        ask: call.ask,
    })
}

/// Why an event turns its transaction, if it does.
fn cause_in(event: &Event) -> Option<Cause>
    ensures { result ≡ cause_in event.now }
{
    match event {
        Event::Abort(_, cause) => Some(*cause),
        Event::Begin(_) | Event::Step(_) | Event::Undo(_) => None,
    }
}

/// What is said of a turn: why the transaction turned, if it did, and else where it stands now.
fn said(cause: Option<Cause>, x: Option<TransactionRef>) -> Option<Turn>
    ensures { (event : TheEvent) → cause ≡ cause_in event → result ≡ option_map (said event) (option_map transaction_of x.entry) }
{
    let x = x?;
    if let Some(cause) = cause {
        return Some(Turn::Turned(cause));
    }
    Some(match x {
        TransactionRef::Forward(f) => Turn::Stepped(f.at()),
        TransactionRef::Undoing(f, _) => Turn::Back(f.at()),
        TransactionRef::Ended(_) => Turn::Ended,
    })
}

/// What the next turn of a transaction changes, if it has one.
fn next_change<S: Store>(
    alloc: Global,
    d: &Design,
    x: TransactionRef,
    s: &S,
) -> Result<Option<Change>, PlainError>
    requires runnable { IsRunnable d.now }
    requires fits { IfSome (frame_in (transaction_of x)) IsSmallFrame }
    requires order { IsInOrder (S.rows s.now) }
    requires within { AreWithin LARGEST_SUM (S.rows s.now) }
    ensures { IfOk result (λ c. MatchOption c (next_event d.now (S.rows s.now) (Some (transaction_of x.entry)) ≡ None)
        (IsNextChange d.now (S.rows s.now) (transaction_of x.entry))) }
{
    match x {
        TransactionRef::Forward(f) => Ok(Some(forward_change(alloc, d, f, s)?)),
        TransactionRef::Undoing(f, cause) => undo_change(alloc, d, f, cause, s),
        TransactionRef::Ended(_) => Ok(None),
    }
}

/// Adds an event and does its writes, or neither.
fn log_writes<S: Store>(
    events: &mut Seq<Event>,
    store: &mut S,
    event: Event,
    writes: &[Write],
) -> Result<(), PlainError>
    requires narrow { All IsNarrow writes.now }
    requires sums { SumsFit (written writes.now (S.rows store.old)) }
    ensures events { OnOk result (events.new ≡ events.old ++ event ∷ []) }
    ensures rows { OnOk result (S.rows store.new ≡ written writes.now (S.rows store.old)) }
    ensures events_stay { OnErr result (events.new ≡ events.old) }
    ensures rows_stay { OnErr result (S.rows store.new ≡ S.rows store.old) }
{
    events.push(event)?;
    match store.apply(writes) {
        Ok(()) => Ok(()),
        Err(StoreError::Memory) => {
            events.pop();
            Err(PlainError::Memory)
        }
    }
}

/// Adds an event and the transaction that begins by it, or neither.
fn log_begin(
    events: &mut Seq<Event>,
    transactions: &mut Transactions,
    event: Event,
    frame: Frame,
) -> Result<(), PlainError>
    requires number { frame.t ≡ length transactions.old + 1 }
    ensures events { OnOk result (events.new ≡ events.old ++ event ∷ []) }
    ensures transactions { OnOk result (transactions.new ≡ transactions.old ++ Forward frame ∷ []) }
    ensures events_stay { OnErr result (events.new ≡ events.old) }
    ensures transactions_stay { OnErr result (transactions.new ≡ transactions.old) }
{
    events.push(event)?;
    match transactions.push(frame) {
        Ok(()) => Ok(()),
        Err(_) => {
            events.pop();
            Err(PlainError::Memory)
        }
    }
}

impl<'a, S: Store> Machine<'a, S> {
    /// A machine before any event, over an empty store.
    pub fn new(alloc: Global, design: &'a Design, store: S) -> Self
        requires runnable { IsRunnable design.now }
        requires empty { S.rows store ≡ [] }
        ensures design { result.design ≡ design.now }
        ensures start { result.world ≡ start }
    {
        Machine {
            alloc,
            design,
            store,
            transactions: Transactions::new(alloc),
            events: Seq::new(alloc),
        }
    }

    /// Makes room for the frames of so many more unfinished transactions, so that to begin them moves no frame.
    pub fn reserve(&mut self, more: usize) -> Result<(), PlainError>
        ensures { self.new ≡ self.old }
    {
        self.transactions.reserve(more)?;
        Ok(())
    }

    /// The frames of the transactions that have begun and haven't ended, in order of number.
    pub fn unfinished(&self) -> &[Frame]
        ensures { result.now ≡ unfinished self.now.world }
    {
        self.transactions.unfinished()
    }

    /// The events so far, oldest first. They are a run of the plain machine, and the machine's state is the one after it.
    pub fn events(&self) -> &Seq<Event>
        ensures events { result.now ≡ self.now.world.events }
        ensures run { IsReached self.now.design self.now.world }
    {
        &self.events
    }

    /// The rows, kept in the store, and the events, oldest first. They are a run of the plain machine, and the rows are those after it.
    pub fn into_parts(self) -> (S, Seq<Event>)
        ensures store { S.rows result.0 ≡ self.entry.world.rows }
        ensures events { result.1 ≡ self.entry.world.events }
        ensures run { IsReached self.entry.design self.entry.world }
    {
        let Machine {
            alloc: _,
            design: _,
            store,
            transactions: _,
            events,
        } = self;
        (store, events)
    }

    /// Begins a call, where there are fewer than 2^30 events. It answers the new transaction's number, which is one above
    /// all before.
    pub fn begin(&mut self, call: &Call) -> Result<u64, PlainError>
        requires fits { call_fits (slice_get self.old.design.types call.now.ty) call.now ≡ true }
        requires room { length self.old.world.events < 2 ^ 30 }
        ensures ok { OnOk result (after_event self.old.design self.old.world (Begin call.now) ≡ Some self.new.world) }
        ensures number { IfOk result (λ t. t ≡ next_number self.old.world) }
        ensures err { OnErr result (self.new.world ≡ self.old.world) }
        ensures design { self.new.design ≡ self.old.design }
        ensures count { length self.new.world.events ≤ length self.old.world.events + 1 }
    {
        let t = self.transactions.next_number();
        let frame = first_frame(self.alloc, self.design, t, call)?;
        let again = copied(call)?;
        log_begin(
            &mut self.events,
            &mut self.transactions,
            Event::Begin(Boxed::new(self.alloc, again)?),
            frame,
        )?;
        Ok(t)
    }

    /// Gives an unfinished transaction its next turn, by the plain machine's rules: it turns where it was asked to,
    /// where its limit is reached, where a number of its step leaves ±2^45 or where its step refuses; else it takes its step.
    ///
    /// It answers nothing where the transaction is being undone and a number of its undo step leaves ±2^45; then nothing
    /// changes. There are to be fewer than 2^30 events.
    pub fn turn(&mut self, t: u64) -> Result<Option<Turn>, PlainError>
        requires unfinished { IsUnfinished t self.old.world }
        requires room { length self.old.world.events < 2 ^ 30 }
        ensures turn { IfOk result (IsTurned self.old.design self.old.world self.new.world t) }
        ensures none { IfOk result (λ turn. IsNone turn ↔ IsOutOfRange self.old.design self.old.world t) }
        ensures err { OnErr result (self.new.world ≡ self.old.world) }
        ensures design { self.new.design ≡ self.old.design }
        ensures count { length self.new.world.events ≤ length self.old.world.events + 1 }
    {
        let Some(x) = self.transactions.get(t) else {
            return Ok(None);
        };
        let Some(change) = next_change(self.alloc, self.design, x, &self.store)? else {
            return Ok(None);
        };
        let Change {
            event,
            writes,
            becomes,
        } = change;
        let cause = cause_in(&event);
        log_writes(&mut self.events, &mut self.store, event, writes.as_slice())?;
        self.transactions.change(t, becomes);
        Ok(said(cause, self.transactions.get(t)))
    }

    /// Does an event, where the machine allows it in its state: true, and then the event is the last; else false, and
    /// nothing changes. There are to be fewer than 2^30 events.
    pub fn take(&mut self, event: &Event) -> Result<bool, PlainError>
        requires room { length self.old.world.events < 2 ^ 30 }
        ensures ok { IfOk result (IsTaken self.old.design self.old.world self.new.world event.now) }
        ensures err { OnErr result (self.new.world ≡ self.old.world) }
        ensures design { self.new.design ≡ self.old.design }
        ensures count { length self.new.world.events ≤ length self.old.world.events + 1 }
    {
        match event {
            Event::Begin(call) => self.take_call(call.get()),
            Event::Step(t) | Event::Abort(t, _) | Event::Undo(t) => self.take_of(*t, event),
        }
    }

    /// Begins a call, where it fits its type.
    fn take_call(&mut self, call: &Call) -> Result<bool, PlainError>
        requires room { length self.old.world.events < 2 ^ 30 }
        ensures ok { IfOk result (IsTaken self.old.design self.old.world self.new.world (Begin call.now)) }
        ensures err { OnErr result (self.new.world ≡ self.old.world) }
        ensures design { self.new.design ≡ self.old.design }
        ensures count { length self.new.world.events ≤ length self.old.world.events + 1 }
    {
        if !call_fits(self.design, call) {
            return Ok(false);
        }
        self.begin(call)?;
        Ok(true)
    }

    /// Does an event of this transaction, where it is allowed.
    fn take_of(&mut self, t: u64, event: &Event) -> Result<bool, PlainError>
        requires of { number_in event.now ≡ Some t }
        requires room { length self.old.world.events < 2 ^ 30 }
        ensures ok { IfOk result (IsTaken self.old.design self.old.world self.new.world event.now) }
        ensures err { OnErr result (self.new.world ≡ self.old.world) }
        ensures design { self.new.design ≡ self.old.design }
        ensures count { length self.new.world.events ≤ length self.old.world.events + 1 }
    {
        let Some(x) = self.transactions.get(t) else {
            return Ok(false);
        };
        let Some(change) = change_by(self.alloc, self.design, event, x, &self.store)? else {
            return Ok(false);
        };
        let Change {
            event: done,
            writes,
            becomes,
        } = change;
        log_writes(&mut self.events, &mut self.store, done, writes.as_slice())?;
        self.transactions.change(t, becomes);
        Ok(true)
    }

    /// The rows, kept in the store.
    pub fn store(&self) -> &S
        ensures { S.rows result.now ≡ self.now.world.rows }
    {
        &self.store
    }

    /// The reply of a transaction that has ended.
    pub fn reply(&self, t: u64) -> Option<&Reply>
        ensures { option_copied result ≡ option_and_then reply_in (transaction_at t self.now.world.transactions) }
    {
        match self.transactions.get(t) {
            Some(TransactionRef::Ended(reply)) => Some(reply),
            Some(TransactionRef::Forward(_) | TransactionRef::Undoing(_, _)) | None => None,
        }
    }

    /// Whether a transaction has begun and hasn't ended.
    pub fn is_unfinished(&self, t: u64) -> bool
        ensures { IsTrue result ↔ IsUnfinished t self.now.world }
    {
        match self.transactions.get(t) {
            Some(TransactionRef::Forward(_) | TransactionRef::Undoing(_, _)) => true,
            Some(TransactionRef::Ended(_)) | None => false,
        }
    }
}
