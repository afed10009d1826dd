//! How the program ends.
ghost use Rattle.std.specs.Prelude.{◌≡◌};
ghost use Rattle.acc_cli.specs.Status.{code_of};

use acc_commands::Ending;

/// How the program ends.
#[derive(Clone, Copy, PartialEq, Eq)]
pub enum Status {
    /// The words are no form.
    Usage,
    /// A file isn't given.
    File,
    /// The sink failed.
    Sink,
    /// Memory ran out.
    Memory,
    /// The command ran.
    Ran(Ending),
}

impl Status {
    /// The number that the process ends with.
    pub fn code(self) -> u8
        ensures { result ≡ code_of self }
    {
        match self {
            Status::Ran(Ending::Done) => 0,
            Status::Usage => 1,
            Status::Ran(Ending::DesignRefused) => 2,
            Status::Ran(Ending::ScriptRefused) => 3,
            Status::Ran(Ending::JournalRefused) => 4,
            Status::Ran(Ending::DiskFailed) => 5,
            Status::File => 6,
            Status::Sink => 7,
            Status::Ran(Ending::Unbegun) => 8,
            Status::Memory => 9,
            Status::Ran(Ending::Open | Ending::ConditionFalse) => 10,
        }
    }
}
