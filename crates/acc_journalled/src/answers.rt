//! What a command answers, and how it ends.
ghost use Rattle.std.specs.Prelude.{◌≡◌, []};

use acc_base::machines::Event;
use acc_base::sequences::Seq;
use std::alloc::{AllocError, Global};

/// How a command ends whose files were given.
#[derive(Clone, Copy, Debug, PartialEq, Eq)]
pub enum Ending {
    Done,
    /// The design or its certificate is refused.
    DesignRefused,
    /// The script or the order is refused.
    ScriptRefused,
    /// The journal is refused: one is there where none may be, there is none, or it isn't one of the design.
    JournalRefused,
    /// A call of the disk failed: its count of faults rose.
    DiskFailed,
    /// A place of the script couldn't begin, since the history is full.
    Unbegun,
    /// An obligation of the design stays open: the search found no proof of it.
    Open,
    /// A consistency condition of TPC-C is false of the recovered rows.
    ConditionFalse,
}

/// What is told of a recovered journal.
#[derive(Clone, Copy, Debug, PartialEq, Eq)]
pub enum Wanted {
    /// How many events it has, and how many transactions were compensated.
    Counts,
    /// The rows, a line each.
    Rows,
    /// The reply of each transaction, a line each, by number.
    Replies,
}

/// What a command says: how it ends, and the text to print.
#[derive(Drop)]
pub struct Answer {
    pub ending: Ending,
    pub text: Vec<u8>,
}

/// How a command ended: the disk that it hands back; the events of its machine as far as they came, none where no machine ran; how many of
/// the first of them the journal holds as durable; and what it says, unless memory ran out.
#[derive(Drop)]
pub struct Ended<D> {
    pub disk: D,
    pub history: Seq<Event>,
    pub settled: u64,
    pub answer: Result<Answer, AllocError>,
}

/// How a command ended that ran no machine.
pub fn unrun<D>(alloc: Global, disk: D, answer: Result<Answer, AllocError>) -> Ended<D>
    ensures none { (result.history ≡ []) × (result.settled ≡ 0) }
    ensures disk { result.disk ≡ disk }
    ensures answer { result.answer ≡ answer }
{
    Ended {
        disk,
        history: Seq::new(alloc),
        settled: 0,
        answer,
    }
}
