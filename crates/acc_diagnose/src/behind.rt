//! What stands behind the design in a command's files, and what a command asks for in it.
use acc_commands_inputs::Command;

/// What a command asks for in its design.
#[derive(Clone, Copy)]
pub enum NamesWanted {
    /// TPC-C's tables: the command's verb.
    Tables(&'static [u8]),
    /// That it is the shipped booking design.
    Booking,
    /// Nothing.
    None,
}

/// What a command asks for in its design.
pub fn asks_tables(command: Command) -> NamesWanted {
    match command {
        Command::Verify => NamesWanted::Tables(b"verify"),
        Command::Bench(_) => NamesWanted::Tables(b"bench"),
        Command::BookingVerify => NamesWanted::Booking,
        Command::Rehearse | Command::Check | Command::Sched | Command::Run(_) => NamesWanted::None,
        Command::Recover | Command::Dump | Command::Replies | Command::Draw => NamesWanted::None,
        Command::Play | Command::Print | Command::Prove | Command::Init => NamesWanted::None,
        Command::Audit | Command::Follow(_) | Command::Migrate => NamesWanted::None,
        Command::TpccDesign | Command::TpccLoad(_) | Command::TpccMix(_) => NamesWanted::None,
        Command::BookingDesign | Command::Advise(_) | Command::Help | Command::Version => {
            NamesWanted::None
        }
    }
}

/// What the file behind a command's design is.
#[derive(Clone, Copy)]
pub enum Second {
    /// The design's certificate, and behind it a script, where there is one.
    Certificate,
    /// The design's certificate, and behind it a journal.
    CertificateOfJournal,
    /// A journal.
    Journal,
    /// A script.
    Script,
    /// There is none.
    None,
}

/// What the file behind a command's design is.
pub fn second_of(command: Command) -> Second {
    match command {
        Command::Rehearse | Command::Check | Command::Sched | Command::Run(_) =>
            Second::Certificate,
        Command::Recover | Command::Dump | Command::Replies | Command::Verify =>
            Second::Certificate,
        Command::Bench(_) | Command::BookingVerify => Second::Certificate,
        Command::Migrate | Command::Follow(_) => Second::CertificateOfJournal,
        Command::Audit => Second::Journal,
        Command::Play => Second::Script,
        Command::Print | Command::Draw | Command::Prove => Second::None,
        Command::Init | Command::Advise(_) => Second::None,
        Command::TpccDesign | Command::TpccLoad(_) | Command::TpccMix(_) => Second::None,
        Command::BookingDesign | Command::Help | Command::Version => Second::None,
    }
}
