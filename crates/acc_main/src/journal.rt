//! The journal's file: its name among the words, how it is opened, and why it can't be used.
ghost use Rattle.std.specs.Prelude.{◌≡◌, ◌++◌, ◌<◌, ◌↔◌, true, map, length, string_bytes, IsSome, option_to_list};
ghost use Rattle.acc_commands_inputs.specs.Words.{asks_journal};

use acc_cli::asks_journal;
use acc_commands_inputs::{Command, command_of};
use acc_disk::{FileDisk, Opening, Trouble};
use acc_wal::FIRST_BYTES;
use std::alloc::{AllocError, Global};

/// The name of the journal's file, where the words ask for a command over one: the last word behind the verb, which is taken away.
pub fn take_journal(words: &mut Vec<String>) -> Option<String>
    ensures last { words.old.items ≡ words.new.items ++ option_to_list result }
    ensures asked { IsSome result ↔ ((asks_journal (map string_bytes words.old.items) ≡ true) × (1 < length words.old.items)) }
{
    if asks_journal(words) && words.len() > 1 {
        words.pop()
    } else {
        None
    }
}

/// How the command of these words opens its journal: `init` and `migrate` make one, over no file but what one of them that was cut short
/// left.
fn opening(words: &[String]) -> Opening {
    match command_of(words) {
        Some(Command::Init | Command::Migrate) => Opening::Make(&FIRST_BYTES),
        Some(Command::Sched | Command::Run(_)) => Opening::Use,
        Some(Command::Recover | Command::Dump | Command::Replies | Command::Verify) => Opening::Use,
        Some(Command::Play | Command::Rehearse | Command::Print | Command::Draw) => Opening::Use,
        Some(Command::Check | Command::Prove | Command::Audit | Command::Bench(_)) => Opening::Use,
        Some(Command::TpccDesign | Command::TpccLoad(_) | Command::TpccMix(_)) => Opening::Use,
        Some(Command::BookingDesign | Command::BookingVerify | Command::Advise(_)) => Opening::Use,
        Some(Command::Follow(_) | Command::Help | Command::Version) | None => Opening::Use,
    }
}

/// The journal's file as a disk, for the command of these words.
pub fn journal_disk<'a>(
    rt: &'a HostRuntime,
    words: &[String],
    path: String,
) -> FileDisk<'a, HostRuntime> {
    FileDisk::new(rt, path, opening(words))
}

/// Whether the file was let alone, so that nothing is to be said of what stands on the disk now.
pub fn is_let_alone(trouble: &Trouble) -> bool {
    match trouble {
        Trouble::InUse | Trouble::OtherFile => true,
        Trouble::Changed | Trouble::Machine(_) => false,
    }
}

/// A line that says why the journal's file can't be used.
pub fn trouble_line(alloc: Global, path: &str, trouble: &Trouble) -> Result<String, AllocError> {
    match trouble {
        Trouble::InUse => format!(in alloc;
            "{path}: another process has this journal; nothing of it was changed, and it can be used once that process has ended\n"
        ),
        Trouble::OtherFile => format!(in alloc;
            "{path}: this file is no journal, and was left as it is; remove it, or give the journal another name\n"
        ),
        Trouble::Changed => format!(in alloc;
            "{path}: something else made this file longer or shorter meanwhile; nothing was written behind that\n"
        ),
        Trouble::Machine(error) => format!(in alloc; "{path}: {error}\n"),
    }
}

/// A line that says that nothing keeps another process from the journal.
pub fn unlocked_line(alloc: Global, path: &str) -> Result<String, AllocError> {
    format!(in alloc;
        "{path}: the file system has no locks, so nothing keeps a second process from this journal; use it with one at a time\n"
    )
}
