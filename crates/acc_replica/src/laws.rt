//! Laws of what a replica does.
ghost use Rattle.std.specs.Prelude.{◌≡◌, List, ℕ, Option};
ghost use Rattle.acc_base.specs.declared.designs.Design.{Design};
ghost use Rattle.acc_base.specs.declared.machines.Event.{Event};
ghost use Rattle.acc_base.specs.Machine.{World, start};
ghost use Rattle.acc_base.specs.Lawful.{LeadLawfully};
ghost use Rattle.acc_print.specs.Designs.{printed};
ghost use Rattle.acc_wal.specs.Items.{AreItems, events_of, seals_of};
ghost use Rattle.acc_wal.specs.Journals.{CountsAll};
ghost use Rattle.acc_wal.specs.declared.items.Item.{Item};
ghost use Rattle.acc_wal.specs.declared.items.Seal.{Seal};
ghost use Rattle.acc_stream.specs.Streams.{AreWhole};
ghost use Rattle.acc_recover.specs.Seals.{AreSealsOf};
ghost use Rattle.acc_replica.specs.Coming.{Come};
ghost use Rattle.acc_replica.specs.Ends.{Ends};
ghost use Rattle.acc_replica.specs.declared.errors.ReplicaError.{ReplicaError};

/// Bytes lead to one state, and there comes one refusal, or none: so both depend on the bytes alone, and not on the pieces in which they
/// came.
pub fn one_end()
    ensures { (d : Design) (fed : List ℕ) (x y : Option ReplicaError) (a b : World)
        → Ends d fed x a → Ends d fed y b → (x ≡ y) × (a ≡ b) }
{}

/// Where the bytes are a journal, the items of their whole batches are the events and the states that it counts.
pub fn counted_as_whole()
    ensures { (d : Design) (fed : List ℕ) (version : ℕ) (events : List Event) (seals : List Seal) (items : List Item)
        → CountsAll fed (printed d) version events seals → AreWhole (printed d) fed items → AreItems 0 items events seals }
{}

/// What has come is what recovery takes: the events are lawful and lead to the state, and each state among them is the text of the rows at
/// its place, where nothing is unfinished.
pub fn come_as_recovered()
    ensures { (d : Design) (items : List Item) (here : World) → Come d start items here
        → LeadLawfully d start (events_of items) here × AreSealsOf d (events_of items) (seals_of 0 items) }
{}
