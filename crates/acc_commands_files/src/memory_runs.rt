//! What a run in memory tells.
ghost use Rattle.std.specs.Prelude.{◌≡◌};
ghost use Rattle.acc_commands_inputs.specs.Answers.{said_alone};
ghost use Rattle.acc_commands_files.specs.Runs.{told_by};

use acc_base::machines::Event;
use acc_base::sequences::Seq;
use acc_journalled::Answer;
use std::alloc::Global;

/// What a run in memory says, and its events, oldest first.
#[derive(Drop)]
pub struct MemoryRun {
    pub answer: Answer,
    pub history: Seq<Event>,
}

/// An answer, where nothing ran.
pub fn unplayed(alloc: Global, answer: Answer) -> MemoryRun
    ensures { told_by result ≡ said_alone answer }
{
    MemoryRun {
        answer,
        history: Seq::new(alloc),
    }
}
