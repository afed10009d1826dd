//! What is told of a journal that is refused, and of a disk that failed.
use crate::damage::between_quotes;
use acc_base::bounds::MOST_EVENTS;
use acc_commands_inputs::{Command, command_of, file_names};
use acc_diagnose_words::{begin_note, end_note, push_note, push_with};
use acc_page::Page;
use std::alloc::{AllocError, Global};

/// What is wrong with a journal, and what helps.
struct Said {
    what: &'static [u8],
    hint: &'static [u8],
}

/// What is said of a refused journal, by the word that is printed for why, and whether the command only reads it.
fn said_of(why: &str, is_read: bool) -> Said {
    match why {
        "exists" => Said {
            what: b"a journal is there already, and nothing of it was changed",
            hint: b"`acc recover`, `acc dump`, `acc replies` and `acc verify` tell what it holds; a new one wants another name",
        },
        "none" if is_read => Said {
            what: b"this file is no journal",
            hint: b"give a journal, or a copy of one",
        },
        "none" => Said {
            what: b"this file is no journal, and nothing of it was changed",
            hint: b"`acc init` makes a journal",
        },
        "version" => Said {
            what: b"acc reads journals of versions 1 and 2; nothing of this one was changed, and its version is ",
            hint: b"take the program that wrote it",
        },
        "damaged" => Said {
            what: b"this journal is damaged, as no crash leaves one, and nothing of it was changed; it can't be read from its byte ",
            hint: b"take another copy of it; or go on with the events before that byte, and lose the ends that were acknowledged behind it",
        },
        "design" => Said {
            what: b"this journal is of another design, and holds what it held",
            hint: b"take the design that it was made for; only comments, blanks and spelling may differ",
        },
        "unlawful" => Said {
            what: b"this journal has an event that no run of its design has, and holds what it held; so many events stand before it: ",
            hint: b"no crash leaves such a journal: the file was changed, or another program wrote it",
        },
        "state" => Said {
            what: b"this journal holds what it held, but a checkpoint in it isn't the rows that its events give; so many stand before it: ",
            hint: b"no crash leaves such a journal: it was damaged, or another program wrote it; take an older copy, or ask `acc audit`",
        },
        _ => Said {
            what: b"",
            hint: b"",
        },
    }
}

/// The place, among the files of a command, of the journal that it only reads, if it reads one.
fn read_place(command: Command) -> Option<usize> {
    match command {
        Command::Audit => Some(1),
        Command::Migrate | Command::Follow(_) => Some(2),
        Command::Init | Command::Sched | Command::Run(_) | Command::Recover => None,
        Command::Dump | Command::Replies | Command::Verify | Command::BookingVerify => None,
        Command::Play | Command::Rehearse | Command::Print | Command::Draw => None,
        Command::Check | Command::Prove | Command::Advise(_) | Command::Bench(_) => None,
        Command::TpccDesign | Command::TpccLoad(_) | Command::TpccMix(_) => None,
        Command::BookingDesign | Command::Help | Command::Version => None,
    }
}

/// The name of the file that is refused as a journal, where the command only reads it; none where it is the journal that the command goes
/// over, as it is where a journal exists.
pub fn read_name<'a>(words: &'a [String], why: &str) -> Option<&'a str> {
    let place = read_place(command_of(words)?)?;
    let name = file_names(words).get(place)?;
    if why == "exists" {
        None
    } else {
        Some(name.as_str())
    }
}

/// Says why a journal is refused: the word and the number that are printed for it.
fn push_refusal(out: &mut Page, read: Option<&str>, why: &str, number: &str) {
    let Said { what, hint } = said_of(why, read.is_some());
    begin_note(out, read.unwrap_or("the journal").as_bytes());
    out.push(what);
    out.push(number.as_bytes());
    end_note(out, hint);
}

/// What helps where a batch was being written while the copy of a journal was taken, by the place of the gate that stays open.
fn past_hint(alloc: Global, name: &str, place: &str) -> Result<String, AllocError> {
    let kept = place.parse::<u64>().unwrap_or(0).saturating_add(1);
    let name = between_quotes(alloc, name)?;
    format!(in alloc; "cut the copy to its first {kept} bytes: truncate -s {kept} -- '{name}'")
}

/// Says that bytes stand behind the gate at this place, which isn't open.
fn push_past(
    alloc: Global,
    out: &mut Page,
    read: Option<&str>,
    place: &str,
) -> Result<(), AllocError> {
    let name = read.unwrap_or("the journal");
    let hint = past_hint(alloc, name, place)?;
    begin_note(out, name.as_bytes());
    out.push(
        b"a batch was being written when this copy was taken, and its gate isn't open yet: bytes stand behind byte ",
    );
    out.push(place.as_bytes());
    end_note(out, hint.as_bytes());
    Ok(())
}

/// Says why a journal is refused, by the line that is printed.
pub fn push_journal(
    alloc: Global,
    out: &mut Page,
    words: &[String],
    printed: &[u8],
) -> Result<(), AllocError> {
    let text = String::from_utf8_lossy(alloc, printed)?;
    let line = text.trim_end();
    if let Some(reason) = line.strip_prefix("refused journal ") {
        let (why, number) = reason.split_once(" ").unwrap_or((reason, ""));
        let read = read_name(words, why);
        if why == "past" {
            return push_past(alloc, out, read, number);
        }
        push_refusal(out, read, why, number);
    }
    Ok(())
}

/// What stands on a disk that failed under this command.
fn standing(command: Command) -> &'static [u8] {
    match command {
        Command::Init | Command::Migrate =>
            b"there is no journal now, or the new one, or the old file with another first byte; give the command again",
        Command::Sched
        | Command::Run(_)
        | Command::Recover
        | Command::Dump
        | Command::Replies
        | Command::Verify
        | Command::BookingVerify =>
            b"what was durable is durable, and nothing half-written counts; `acc recover` brings the journal to rest",
        Command::Play | Command::Rehearse | Command::Print | Command::Check => b"",
        Command::Draw | Command::Prove | Command::Bench(_) => b"",
        Command::Help | Command::Version => b"",
        Command::TpccDesign | Command::TpccLoad(_) | Command::TpccMix(_) => b"",
        Command::BookingDesign | Command::Advise(_) | Command::Audit | Command::Follow(_) => b"",
    }
}

/// Says that a call of the disk failed under this command.
pub fn push_disk(out: &mut Page, command: Command) {
    push_note(
        out,
        b"the journal",
        b"the file can't be opened, read or written, or the device failed",
        standing(command),
    )
}

/// Which places stayed unbegun, and what is so of the others.
fn unbegun(words: &[String]) -> (&'static [u8], &'static [u8]) {
    if let Some(Command::Bench(_)) = command_of(words) {
        (
            b" events of a run; a call of the load or of the mix came behind them",
            b"it is neither committed nor compensated; a smaller load or mix has room",
        )
    } else {
        (
            b" events of a run, or of a journal; each place that is told as unbegun came behind them",
            b"what is told of the other places stands",
        )
    }
}

/// Says why a place stayed unbegun.
pub fn push_full(out: &mut Page, words: &[String]) {
    let (which, others) = unbegun(words);
    begin_note(out, b"acc");
    push_with(out, b"no call begins behind ", MOST_EVENTS, which);
    end_note(out, others)
}
