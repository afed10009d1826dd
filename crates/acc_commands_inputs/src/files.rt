//! The words that name files, and those that name points; and the files, which are read.
ghost use Rattle.std.specs.Prelude.{◌≡◌, ◌+◌, ◌≤◌, map, length, string_bytes, IfOk, IfErr, OnOk};
ghost use Rattle.acc_io.specs.Counted.{after_files};
ghost use Rattle.acc_commands_inputs.specs.Files.{AllGiven, AreFiles, IsFirstRefused};
ghost use Rattle.acc_commands_inputs.specs.Words.{point_count, word_count, files_of, points_of, file_names};

use crate::usage::{file_count, point_count, verb_count};
use crate::words::{Command, command_of};
use acc_io::{Shelf, ShelfError};
use std::alloc::Global;

/// The first file that isn't given, and why.
#[derive(Clone, Copy)]
pub struct FileRefusal<'a> {
    pub name: &'a str,
    pub error: ShelfError,
}

/// The bytes of each file, in order.
pub fn read_all<'a, H: Shelf>(
    alloc: Global,
    shelf: &mut H,
    names: &'a [String],
) -> Result<Vec<Vec<u8>>, FileRefusal<'a>>
    ensures held { H.held shelf.new ≡ H.held shelf.old }
    ensures faults { (H.counts shelf.old).faults ≤ (H.counts shelf.new).faults }
    ensures absences { (H.counts shelf.old).absences ≤ (H.counts shelf.new).absences }
    ensures kept { OnOk result (AllGiven (H.counts shelf.old) (H.counts shelf.new)) }
    ensures counted { OnOk result (H.counts shelf.new ≡ after_files (length names.now) (H.counts shelf.old)) }
    ensures count { IfOk result (λ files. length files.items ≡ length names.now) }
    ensures read { IfOk result (λ files. AreFiles (H.held shelf.old) (map string_bytes names.now) (map (λ v. v.items) files.items)) }
    ensures refused { IfErr result (λ e. IsFirstRefused (H.held shelf.old) (H.counts shelf.old) (H.counts shelf.new)
        (map string_bytes names.now) e.name.now e.error) }
{
    let mut files = Vec::new(alloc);
    for name in names {
        let name = name.as_str();
        let file = match shelf.read(alloc, name) {
            Ok(file) => file,
            Err(error) => return Err(FileRefusal { name, error }),
        };
        if files.push(file).is_err() {
            let error = ShelfError::Memory;
            return Err(FileRefusal { name, error });
        }
    }
    Ok(files)
}

/// The words that name the files of a command that the words ask for.
pub fn files_in(command: Command, words: &[String]) -> &[String]
    requires { word_count command ≤ length words.now }
    ensures { map string_bytes result.now ≡ files_of command (map string_bytes words.now) }
{
    let first = verb_count(command);
    &words[first..first + file_count(command)]
}

/// The words that name points of the design of a command that the words ask for.
pub fn points_in(command: Command, words: &[String]) -> &[String]
    requires { word_count command ≤ length words.now }
    ensures names { map string_bytes result.now ≡ points_of command (map string_bytes words.now) }
    ensures count { length result.now ≡ point_count command }
{
    let first = verb_count(command) + file_count(command);
    &words[first..first + point_count(command)]
}

/// The words that name the files of the command that the words ask for; none where they ask for no command.
pub fn file_names(words: &[String]) -> &[String]
    ensures { map string_bytes result.now ≡ file_names (map string_bytes words.now) }
{
    match command_of(words) {
        Some(command) => files_in(command, words),
        None => &[],
    }
}
