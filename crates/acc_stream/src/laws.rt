//! Laws of the definitions.
ghost use Rattle.std.specs.Prelude.{◌≡◌, List, ℕ, Option};
ghost use Rattle.acc_wal.specs.Journals.{CountsItems};
ghost use Rattle.acc_wal.specs.declared.items.Item.{Item};
ghost use Rattle.acc_stream.specs.declared.faults.Fault.{Fault};
ghost use Rattle.acc_stream.specs.Streams.{IsStream, AreWhole};

/// Bytes say one thing: one list of items, and one fault or none.
pub fn one_stream()
    ensures { (base bytes : List ℕ) (a b : List Item) (x y : Option Fault)
        → IsStream base bytes a x → IsStream base bytes b y → (a ≡ b) × (x ≡ y) }
{}

/// Where they are a journal of the base text, its items are those of the whole batches.
pub fn counted_are_whole()
    ensures { (base bytes : List ℕ) (version : ℕ) (items : List Item)
        → CountsItems bytes base version items → AreWhole base bytes items }
{}
