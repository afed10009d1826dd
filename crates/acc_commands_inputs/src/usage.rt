//! The table of commands: how each is asked for.
ghost use Rattle.std.specs.Prelude.{◌≡◌, length, true, false};
ghost use Rattle.acc_commands_inputs.specs.Words.{usage_line, usage_in, verb_of, file_count, point_count, is_journalled};

use crate::words::Command;

/// How a command is asked for.
#[derive(Clone, Copy)]
struct Usage {
    /// How many words its verb has.
    verb: usize,
    /// How many words behind the verb name files.
    files: usize,
    /// How many words behind those name points of the design.
    points: usize,
    /// Whether it goes over a journal, which the program's last word names.
    over_journal: bool,
}

/// By a verb of one word and the names of so many files.
fn in_memory(files: usize) -> Usage
    ensures { result ≡ record { verb = 1; files = files; points = 0; over_journal = false } }
{
    Usage {
        verb: 1,
        files,
        points: 0,
        over_journal: false,
    }
}

/// The same, and the name of a journal.
fn over_journal(files: usize) -> Usage
    ensures { result ≡ record { verb = 1; files = files; points = 0; over_journal = true } }
{
    Usage {
        verb: 1,
        files,
        points: 0,
        over_journal: true,
    }
}

/// The same as a command with a verb of one word, by one of two words.
fn by_two_words(usage: Usage) -> Usage
    ensures { result ≡ record { verb = 2; files = usage.files; points = usage.points; over_journal = usage.over_journal } }
{
    Usage {
        verb: 2,
        files: usage.files,
        points: usage.points,
        over_journal: usage.over_journal,
    }
}

/// By a verb of one word, the names of so many files and of so many points of the design.
fn with_points(files: usize, points: usize) -> Usage
    ensures { result ≡ record { verb = 1; files = files; points = points; over_journal = false } }
{
    Usage {
        verb: 1,
        files,
        points,
        over_journal: false,
    }
}

/// The table.
fn usage_of(command: Command) -> Usage
    ensures { result ≡ usage_in (usage_line command) }
{
    match command {
        Command::Help | Command::Version => in_memory(0),
        Command::Print | Command::Draw | Command::Prove => in_memory(1),
        Command::Check | Command::Audit | Command::Bench(_) => in_memory(2),
        Command::Play | Command::Follow(_) => in_memory(3),
        Command::Rehearse => in_memory(4),
        Command::Advise(_) => with_points(1, 2),
        Command::Init => over_journal(1),
        Command::Recover | Command::Dump | Command::Replies | Command::Verify => over_journal(2),
        Command::Run(_) | Command::Migrate => over_journal(3),
        Command::Sched => over_journal(4),
        Command::TpccDesign | Command::BookingDesign => by_two_words(in_memory(0)),
        Command::TpccLoad(_) | Command::TpccMix(_) => by_two_words(in_memory(0)),
        Command::BookingVerify => by_two_words(over_journal(2)),
    }
}

/// How many words ask for a command.
pub(crate) fn verb_count(command: Command) -> usize
    ensures { result ≡ length (verb_of command) }
{
    usage_of(command).verb
}

/// How many of the words behind the verb name files.
#[tactic(auto, unfolding(crate::specs::Words::file_count))]
pub(crate) fn file_count(command: Command) -> usize
    ensures { result ≡ file_count command }
{
    usage_of(command).files
}

/// How many of the words behind those of the files name points.
#[tactic(auto, unfolding(crate::specs::Words::point_count))]
pub(crate) fn point_count(command: Command) -> usize
    ensures { result ≡ point_count command }
{
    usage_of(command).points
}

/// Whether a command goes over a journal.
pub(crate) fn is_journalled(command: Command) -> bool
    ensures { result ≡ is_journalled command }
{
    usage_of(command).over_journal
}
