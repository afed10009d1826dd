//! What comes of a load and a mix.
ghost use Rattle.std.specs.Prelude.{◌≡◌};

use acc_base::machines::Event;
use acc_base::sequences::Seq;
use acc_base::tables::Key;
use acc_index_store::IndexStore;
use acc_lock_rules::State;

/// What comes of a load: how many calls it has, how many events there were when all had ended, and whether each call began.
#[derive(Clone, Copy)]
pub struct Loaded {
    pub places: u64,
    pub events: u64,
    pub all_begun: bool,
}

/// What comes of a mix: how many of its calls committed, how many were compensated, how many of the order's turns were blocked, by how
/// many a victim turned back, and whether each call began.
#[derive(Clone, Copy)]
pub struct Mixed {
    pub committed: u64,
    pub compensated: u64,
    pub blocked: u64,
    pub victims: u64,
    pub all_begun: bool,
}

/// What comes of a load and a mix, and the state that they leave.
#[derive(Drop)]
pub struct Ran<'a> {
    pub loaded: Loaded,
    pub mixed: Mixed,
    pub state: State<'a, IndexStore>,
}

/// A consistency condition that is false: its number, from 1 to 9, and the key of the first row that shows it.
#[derive(Drop)]
pub struct FalseCondition {
    pub number: u32,
    pub key: Key,
}

/// What comes of a load and a mix; all events, oldest first; and the lowest consistency condition that is false of the rows at the end.
#[derive(Drop)]
pub struct Benched {
    pub loaded: Loaded,
    pub mixed: Mixed,
    pub history: Seq<Event>,
    pub against: Option<FalseCondition>,
}
