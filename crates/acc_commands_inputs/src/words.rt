//! The forms of the command line.
ghost use Rattle.std.specs.Prelude.{◌≡◌, ◌+◌, ◌≤◌, map, length, string_bytes, IfSome};
ghost use Rattle.acc_commands_inputs.specs.Words.{form_of, workload_of, booking_of, side_of, file_count, word_count, HasVerb, IsOneWord};
ghost use Rattle.acc_commands_inputs.specs.Words.{with_files, with_workers, with_design, with_load, with_mix, with_tpcc, with_booking, with_bench};
ghost use Rattle.acc_commands_inputs.specs.Words.{with_pieces, with_advice, is_over_journal, command_of, wanted_of, asks_journal};

use crate::numbers::{mix_of, number_of, scale_of};
use crate::scales::{AskedScale, Mix};
use crate::usage::{file_count, is_journalled};
use acc_base::designs::Side;

/// The most workers that `run` takes.
pub const MOST_WORKERS: u64 = 64;

/// The most bytes that a piece has in which `follow` reads a journal.
pub const MOST_PIECE: u64 = 65_536;

/// What the program is asked to do.
#[derive(Clone, Copy)]
pub enum Command {
    /// `play DESIGN SCRIPT ORDER`
    Play,
    /// `rehearse DESIGN CERT SCRIPT ORDER`
    Rehearse,
    /// `print DESIGN`
    Print,
    /// `draw DESIGN`
    Draw,
    /// `check DESIGN CERT`
    Check,
    /// `prove DESIGN`
    Prove,
    /// `advise DESIGN HELD STEP SIDE`: for two points of the design, with the side of the step
    Advise(Side),
    /// `audit DESIGN COPY`: COPY is a journal, or a copy of one
    Audit,
    /// `follow DESIGN CERT COPY SIZE`: COPY is a journal, or a copy of one, and is fed in pieces of so many bytes: from 1 to `MOST_PIECE`
    Follow(u64),
    /// `init DESIGN`, over a journal
    Init,
    /// `sched DESIGN CERT SCRIPT ORDER`, over a journal
    Sched,
    /// `run DESIGN CERT SCRIPT WORKERS`, over a journal, with so many workers: from 1 to `MOST_WORKERS`
    Run(u64),
    /// `recover DESIGN CERT`, over a journal
    Recover,
    /// `dump DESIGN CERT`, over a journal
    Dump,
    /// `replies DESIGN CERT`, over a journal
    Replies,
    /// `verify DESIGN CERT`, over a journal
    Verify,
    /// `migrate DESIGN CERT OLD`, over a journal that it makes of OLD, which is one or a copy of one
    Migrate,
    /// `tpcc design`
    TpccDesign,
    /// `tpcc load W ITEMS CUSTOMERS`
    TpccLoad(AskedScale),
    /// `tpcc mix W ITEMS CUSTOMERS COUNT START`
    TpccMix(Mix),
    /// `booking design`
    BookingDesign,
    /// `booking verify DESIGN CERT`, over a journal
    BookingVerify,
    /// `bench DESIGN CERT W ITEMS CUSTOMERS COUNT START`
    Bench(Mix),
    /// `--help`
    Help,
    /// `--version`
    Version,
}

/// What stands behind a verb.
#[derive(Clone, Copy)]
enum Operands {
    /// The names of the command's files.
    Files(Command),
    /// The names of the files of `run`, and the number of workers.
    Workers,
    /// The names of the files of `follow`, and how many bytes a piece has.
    Pieces,
    /// The word that says what is wanted of TPC-C, and the numbers of that.
    Tpcc,
    /// The word that says what is wanted of the booking design, and the names of the files of that.
    Booking,
    /// The names of the files of `bench`, and the numbers of its mix.
    Bench,
    /// The names of a design and of two points of it, and a side.
    Advice,
}

/// What is wanted of TPC-C.
#[derive(Clone, Copy)]
enum Workload {
    Design,
    /// With its scale.
    Load,
    /// With its scale, how many transactions it has, and the number that they are drawn from.
    Mix,
}

/// What stands behind this verb.
#[tactic(auto, unfolding(crate::specs::Words::form_of, crate::specs::Words::point_count))]
fn form_of(verb: &str) -> Option<Operands>
    ensures form { result ≡ form_of verb.now }
    ensures one_word { IfSome result IsOneWord }
{
    match verb {
        "play" => Some(Operands::Files(Command::Play)),
        "rehearse" => Some(Operands::Files(Command::Rehearse)),
        "print" => Some(Operands::Files(Command::Print)),
        "draw" => Some(Operands::Files(Command::Draw)),
        "check" => Some(Operands::Files(Command::Check)),
        "prove" => Some(Operands::Files(Command::Prove)),
        "advise" => Some(Operands::Advice),
        "audit" => Some(Operands::Files(Command::Audit)),
        "follow" => Some(Operands::Pieces),
        "init" => Some(Operands::Files(Command::Init)),
        "sched" => Some(Operands::Files(Command::Sched)),
        "run" => Some(Operands::Workers),
        "recover" => Some(Operands::Files(Command::Recover)),
        "dump" => Some(Operands::Files(Command::Dump)),
        "replies" => Some(Operands::Files(Command::Replies)),
        "verify" => Some(Operands::Files(Command::Verify)),
        "migrate" => Some(Operands::Files(Command::Migrate)),
        "tpcc" => Some(Operands::Tpcc),
        "booking" => Some(Operands::Booking),
        "bench" => Some(Operands::Bench),
        "--help" => Some(Operands::Files(Command::Help)),
        "--version" => Some(Operands::Files(Command::Version)),
        _ => None,
    }
}

/// What this word wants of TPC-C.
#[tactic(auto, unfolding(crate::specs::Words::workload_of))]
fn workload_of(word: &str) -> Option<Workload>
    ensures { result ≡ workload_of word.now }
{
    match word {
        "design" => Some(Workload::Design),
        "load" => Some(Workload::Load),
        "mix" => Some(Workload::Mix),
        _ => None,
    }
}

/// What this word wants of the booking design.
#[tactic(auto, unfolding(crate::specs::Words::booking_of, crate::specs::Words::point_count))]
fn booking_of(word: &str) -> Option<Command>
    ensures command { result ≡ booking_of word.now }
    ensures two_words { IfSome result (HasVerb 2) }
{
    match word {
        "design" => Some(Command::BookingDesign),
        "verify" => Some(Command::BookingVerify),
        _ => None,
    }
}

/// The side of a point that a word names.
#[tactic(auto, unfolding(crate::specs::Words::side_of))]
fn side_of(word: &str) -> Option<Side>
    ensures { result ≡ side_of word.now }
{
    match word {
        "next" => Some(Side::Next),
        "undo" => Some(Side::Undo),
        _ => None,
    }
}

/// The command, if as many words stand behind its verb as it has files.
fn with_files(command: Command, names: &[String]) -> Option<Command>
    ensures command { result ≡ with_files command (map string_bytes names.now) }
    ensures length { IfSome result (λ c. (c ≡ command) × (length names.now ≡ file_count command)) }
{
    if names.len() == file_count(command) {
        Some(command)
    } else {
        None
    }
}

/// `run`, if the names of its files and a number of workers stand behind the verb.
fn with_workers(words: &[String]) -> Option<Command>
    ensures command { result ≡ with_workers (map string_bytes words.now) }
    ensures length { IfSome result (λ command. word_count command ≤ length words.now + 1) }
{
    let [_design, _certificate, _script, workers] = words else {
        return None;
    };
    Some(Command::Run(number_of(1, MOST_WORKERS, workers.as_str())?))
}

/// `follow`, if the names of its files and the number of a piece's bytes stand behind the verb.
fn with_pieces(words: &[String]) -> Option<Command>
    ensures command { result ≡ with_pieces (map string_bytes words.now) }
    ensures length { IfSome result (λ command. word_count command ≤ length words.now + 1) }
{
    let [_design, _certificate, _copy, size] = words else {
        return None;
    };
    Some(Command::Follow(number_of(1, MOST_PIECE, size.as_str())?))
}

/// `tpcc design`, if nothing stands behind it.
#[tactic(auto, unfolding(crate::specs::Words::file_count, crate::specs::Words::point_count))]
fn with_design(words: &[String]) -> Option<Command>
    ensures command { result ≡ with_design (map string_bytes words.now) }
    ensures length { IfSome result (λ command. word_count command ≤ length words.now + 2) }
{
    if words.is_empty() {
        Some(Command::TpccDesign)
    } else {
        None
    }
}

/// `tpcc load`, if its scale stands behind it.
#[tactic(auto, unfolding(crate::specs::Words::file_count, crate::specs::Words::point_count))]
fn with_load(words: &[String]) -> Option<Command>
    ensures command { result ≡ with_load (map string_bytes words.now) }
    ensures length { IfSome result (λ command. word_count command ≤ length words.now + 2) }
{
    let [warehouses, items, customers] = words else {
        return None;
    };
    let scale = scale_of(warehouses.as_str(), items.as_str(), customers.as_str())?;
    Some(Command::TpccLoad(scale))
}

/// `tpcc mix`, if its numbers stand behind it.
#[tactic(auto, unfolding(crate::specs::Words::file_count, crate::specs::Words::point_count))]
fn with_mix(words: &[String]) -> Option<Command>
    ensures command { result ≡ with_mix (map string_bytes words.now) }
    ensures length { IfSome result (λ command. word_count command ≤ length words.now + 2) }
{
    Some(Command::TpccMix(mix_of(words)?))
}

/// The command of which the words behind `tpcc` say what is wanted.
fn with_tpcc(words: &[String]) -> Option<Command>
    ensures command { result ≡ with_tpcc (map string_bytes words.now) }
    ensures length { IfSome result (λ command. word_count command ≤ length words.now + 1) }
{
    let [wanted, behind @ ..] = words else {
        return None;
    };
    match workload_of(wanted.as_str())? {
        Workload::Design => with_design(behind),
        Workload::Load => with_load(behind),
        Workload::Mix => with_mix(behind),
    }
}

/// The command of which the words behind `booking` say what is wanted.
fn with_booking(words: &[String]) -> Option<Command>
    ensures command { result ≡ with_booking (map string_bytes words.now) }
    ensures length { IfSome result (λ command. word_count command ≤ length words.now + 1) }
{
    let [wanted, names @ ..] = words else {
        return None;
    };
    with_files(booking_of(wanted.as_str())?, names)
}

/// `advise`, if the names of its design and of two points and a side stand behind the verb.
#[tactic(auto, unfolding(crate::specs::Words::file_count, crate::specs::Words::point_count))]
fn with_advice(words: &[String]) -> Option<Command>
    ensures command { result ≡ with_advice (map string_bytes words.now) }
    ensures length { IfSome result (λ command. word_count command ≤ length words.now + 1) }
{
    let [_design, _held, _step, side] = words else {
        return None;
    };
    Some(Command::Advise(side_of(side.as_str())?))
}

/// `bench`, if the names of its files and its mix stand behind the verb.
#[tactic(auto, unfolding(crate::specs::Words::file_count, crate::specs::Words::point_count))]
fn with_bench(words: &[String]) -> Option<Command>
    ensures command { result ≡ with_bench (map string_bytes words.now) }
    ensures length { IfSome result (λ command. word_count command ≤ length words.now + 1) }
{
    let [_design, _certificate, behind @ ..] = words else {
        return None;
    };
    Some(Command::Bench(mix_of(behind)?))
}

/// The command that the words ask for: its verb, and behind it the names of its files, and then for `run` the number of workers, for
/// `follow` that of a piece's bytes, for `bench` the numbers of its mix, for `advise` two points and a side; or `tpcc` or `booking`, and
/// behind it what is wanted of that, with its numbers or the names of its files.
pub fn command_of(words: &[String]) -> Option<Command>
    ensures command { result ≡ command_of (map string_bytes words.now) }
    ensures length { IfSome result (λ command. word_count command ≤ length words.now) }
{
    let [verb, behind @ ..] = words else {
        return None;
    };
    match form_of(verb.as_str())? {
        Operands::Files(command) => with_files(command, behind),
        Operands::Workers => with_workers(behind),
        Operands::Pieces => with_pieces(behind),
        Operands::Tpcc => with_tpcc(behind),
        Operands::Booking => with_booking(behind),
        Operands::Bench => with_bench(behind),
        Operands::Advice => with_advice(behind),
    }
}

/// What is wanted of the booking design, by the word behind `booking`.
fn wanted_of(words: &[String]) -> Option<Command>
    ensures { result ≡ wanted_of (map string_bytes words.now) }
{
    let [wanted, ..] = words else {
        return None;
    };
    booking_of(wanted.as_str())
}

/// Whether a command is asked for, and one over a journal.
fn is_over_journal(command: Option<Command>) -> bool
    ensures { result ≡ is_over_journal command }
{
    match command {
        Some(command) => is_journalled(command),
        None => false,
    }
}

/// Whether the first words are the verb of a command over a journal. Then the program's own last word names the journal's file, and stands
/// in no form.
pub fn asks_journal(words: &[String]) -> bool
    ensures { result ≡ asks_journal (map string_bytes words.now) }
{
    let [verb, behind @ ..] = words else {
        return false;
    };
    match form_of(verb.as_str()) {
        Some(Operands::Files(command)) => is_journalled(command),
        Some(Operands::Workers) => true,
        Some(Operands::Booking) => is_over_journal(wanted_of(behind)),
        Some(Operands::Pieces | Operands::Tpcc | Operands::Bench | Operands::Advice) | None =>
            false,
    }
}
