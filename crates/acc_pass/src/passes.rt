//! The table of the one word, and the passes.
ghost use Rattle.std.specs.Prelude.{◌≡◌, ◌<◌, ◌^◌, ◌||◌, true, false, [], ◌∷◌, ◌++◌, length, IfOk};
ghost use Rattle.acc_pass.specs.Histories.{longer, MayAppend};
ghost use Rattle.acc_pass.specs.Rules.{known, first_view, Told, Knows, appended};

use crate::steps::{Appends, Breaks, Chosen, Halves, Notes, Ruled, Whole};
use crate::views::View;
use acc_base::machines::Event;
use acc_base::sequences::Seq;
use atomic_table::{Seat, Table};
use std::alloc::{AllocError, Global};
use std::marker::{Brand, Model, PhantomData};

/// Names one table, and the history that it began with.
pub trait Room {
    ghost use Rattle.std.specs.Prelude.{List};
    ghost use Rattle.atomic_table.specs.Seated.{TableId};
    ghost use Rattle.acc_base.specs.declared.machines.Event.{Event};

    ghost table: { TableId };

    ghost start: { List Event };
}

impl Room for Brand {
    ghost use Rattle.std.specs.Prelude.{[]};
    ghost use Rattle.acc_pass.specs.Rules.{no_table};

    ghost table = { no_table };

    ghost start = { [] };
}

/// A table and its first seat, which have no name yet.
pub struct Opened {
    pub table: Table<(), View, Seq<Event>, Ruled, Global>,
    pub seat: Seat<(), View>,
    pub ghost one_word: { table.shared.table_id.words ≡ 1 },
    pub ghost same: { seat.table_id ≡ table.shared.table_id },
    pub ghost free: { seat.me.1 ≡ [] },
    pub ghost view: { seat.me.0 ≡ first_view seat.me.0.now.seen },
}

/// The table of one history. Its word has the number of events, and its top bit stands once an engine call has answered Disk.
#[derive(Drop)]
pub struct Passes<B: Room> {
    table: Table<(), View, Seq<Event>, Ruled, Global>,
    of: PhantomData<B>,
    ghost named: { table.shared.table_id ≡ B.table },
    ghost one_word: { table.shared.table_id.words ≡ 1 },
}

/// What one thread knows. Contracts see it as that.
#[derive(Drop)]
pub struct Pass<B: Room> {
    seat: Seat<(), View>,
    of: PhantomData<B>,
}

impl<B: Room> Model for Pass<B> {
    ghost use Rattle.std.specs.Prelude.{◌≡◌, []};
    ghost use Rattle.acc_pass.specs.declared.views.Known.{Known};
    ghost use Rattle.acc_pass.specs.Rules.{calm, Knows};

    ghost Value = { Known };

    ghost view = { λ p. p.seat.me.0.now };

    ghost invariant = { λ p. (p.seat.table_id ≡ B.table) × (p.seat.me.1 ≡ []) × (p.seat.me.0 ≡ calm p.seat.me.0.now)
        × Knows B.start p.seat.me.0.now };
}

impl Opened {
    /// A table whose history begins with these events.
    pub fn new(alloc: Global, history: &Seq<Event>) -> Result<Opened, AllocError>
        requires { length history.now < 2 ^ 62 }
        ensures { IfOk result (λ opened. opened.seat.me.0.now.seen ≡ history.now) }
    {
        let (table, seat) = Table::of_words(alloc, &[history.len() as u64], history)?;
        Ok(Opened { table, seat })
    }

    /// The table under a name, and the keeper. It takes no memory.
    pub fn named<B: Room>(self) -> (Passes<B>, Pass<B>)
        requires table { self.table.shared.table_id ≡ B.table }
        requires start { self.seat.me.0.now.seen ≡ B.start }
        ensures { result.1 ≡ known true false B.start [] }
    {
        let Opened { table, seat } = self;
        (
            Passes {
                table,
                of: PhantomData,
            },
            Pass {
                seat,
                of: PhantomData,
            },
        )
    }
}

impl<B: Room> Pass<B> {
    /// What is true of each pass.
    pub fn knows(&self)
        ensures { Knows B.start self.now }
    {
        let _ = &self.seat;
    }
}

impl<B: Room> Passes<B> {
    // One fetch_add, by the keeper. The event is an argument so that the call can pick it.
    fn append_as<E: Chosen>(&self, seat: &mut Seat<(), View>, _event: &Event)
        requires table { seat.old.table_id ≡ B.table }
        requires mark { seat.old.me.0.now.keeps ≡ true }
        requires room { length seat.old.me.0.now.seen < 2 ^ 62 }
        requires may { MayAppend seat.old.me.0.now.seen seat.old.me.0.now.mine E.event }
        ensures table { seat.new.table_id ≡ seat.old.table_id }
        ensures view { seat.new.me.0 ≡ appended E.event seat.old.me.0 }
        ensures tokens { seat.new.me.1 ≡ seat.old.me.1 }
    {
        self.table.shared.fetch_add::<Appends<E>>(seat, 0, 1);
    }

    /// Adds the event to the history, at the end of all that the keeper has seen, and to the keeper's own. It takes no memory.
    pub fn append(&self, pass: Pass<B>, event: &Event) -> Pass<B>
        requires mark { pass.keeps ≡ true }
        requires room { length pass.seen < 2 ^ 62 }
        requires may { MayAppend pass.seen pass.mine event.now }
        ensures { result ≡ known true pass.broken (pass.seen ++ event.now ∷ []) (pass.mine ++ (length pass.seen, event.now) ∷ []) }
    {
        let Pass { mut seat, of } = pass;
        self.append_as::<Brand>(&mut seat, event);
        Pass { seat, of }
    }

    /// Learns whether an engine call has answered Disk. It takes no memory.
    pub fn note(&self, pass: Pass<B>) -> Pass<B>
        ensures keeps { result.keeps ≡ pass.keeps }
        ensures seen { result.seen ≡ pass.seen }
        ensures mine { result.mine ≡ pass.mine }
        ensures told { Told pass result }
    {
        let Pass { mut seat, of } = pass;
        self.table.shared.load::<Notes>(&mut seat, 0);
        Pass { seat, of }
    }

    /// Marks that an engine call has answered Disk. It takes no memory.
    pub fn mark(&self, pass: Pass<B>) -> Pass<B>
        requires { pass.keeps ≡ true }
        ensures { result ≡ known true true pass.seen pass.mine }
    {
        let Pass { mut seat, of } = pass;
        self.table.shared.fetch_or::<Breaks>(&mut seat, 0, 1 << 63);
        Pass { seat, of }
    }

    /// The first keeps all but the keeper's mark, which the second gets. It takes no memory.
    pub fn split(&self, pass: Pass<B>) -> (Pass<B>, Pass<B>)
        ensures first { result.0 ≡ known false pass.broken pass.seen pass.mine }
        ensures second { result.1 ≡ known pass.keeps pass.broken pass.seen [] }
    {
        let Pass { mut seat, of: _ } = pass;
        let other = self.table.shared.split_seat::<Halves>(&mut seat);
        (
            Pass {
                seat,
                of: PhantomData,
            },
            Pass {
                seat: other,
                of: PhantomData,
            },
        )
    }

    /// One pass with what both know. It takes no memory.
    pub fn join(&self, first: Pass<B>, second: Pass<B>) -> Pass<B>
        ensures keeps { result.keeps ≡ (first.keeps || second.keeps) }
        ensures seen { result.seen ≡ longer first.seen second.seen }
        ensures mine { result.mine ≡ first.mine ++ second.mine }
        ensures first { Told first result }
        ensures second { Told second result }
    {
        let Pass { mut seat, of } = first;
        let Pass { seat: other, of: _ } = second;
        self.table.shared.join_seat::<Whole>(&mut seat, other);
        self.table.shared.load::<Notes>(&mut seat, 0);
        Pass { seat, of }
    }

    /// Both see the longer of the two beginnings, and each keeps its own places. It takes no memory.
    pub fn meet(&self, first: Pass<B>, second: Pass<B>) -> (Pass<B>, Pass<B>)
        requires { (first.keeps ≡ false) × (second.keeps ≡ false) }
        ensures keeps { (result.0.keeps ≡ false) × (result.1.keeps ≡ false) }
        ensures seen { (result.0.seen ≡ longer first.seen second.seen) × (result.1.seen ≡ longer first.seen second.seen) }
        ensures mine { (result.0.mine ≡ first.mine) × (result.1.mine ≡ second.mine) }
        ensures first { Told first result.0 × Told second result.0 }
        ensures second { Told first result.1 × Told second result.1 }
    {
        let (first, one) = self.split(first);
        let (second, other) = self.split(second);
        (self.join(first, other), self.join(second, one))
    }
}
