//! The kinds of cases of which no command line tells: the first word of a line is its kind, and a crate answers what stands behind it.
use acc_base::designs::Design;
use acc_cases_commands::texts::first_word;
use acc_cases_disk::Devices;
use acc_cases_searches::Told;
use acc_cases_wal::Held;
use acc_lift::Accepted;
use std::alloc::AllocError;
use std::fs::File;
use std::io;
use std::rt::Files;

/// What the lines so far have given, by kinds.
#[derive(Drop)]
pub struct Kinds {
    devices: Devices,
    held: Held,
    design: Option<Design>,
    base: String,
    told: Told,
    accepted: Option<Accepted>,
    /// The design of the cases of what is told of refused command lines.
    pub explained: String,
}

impl Kinds {
    /// Nothing so far.
    pub fn new<R: AllocGlobal>(rt: &R) -> Result<Kinds, AllocError> {
        let alloc = rt.alloc();
        Ok(Kinds {
            devices: Devices::new(alloc)?,
            held: Held::Nothing,
            design: None,
            base: String::new(alloc),
            told: Told::new(alloc),
            accepted: None,
            explained: String::new(alloc),
        })
    }
}

/// Prints a line, and what it answers if it asks something.
fn say<R: Print>(rt: &R, line: &str, said: Option<String>) -> io::Result<()> {
    match said {
        Some(said) => println!(rt; "{line} -> {said}"),
        None => rt.println(line),
    }
}

/// What a line answers that asks about devices, a journal, a workload or relations.
fn answered<R: Files<File = File> + Print + AllocGlobal>(
    rt: &R,
    kinds: &mut Kinds,
    line: &str,
) -> Result<String, AllocError> {
    let (kind, rest) = first_word(line);
    match kind {
        "device" => acc_cases_disk::answer(rt, &mut kinds.devices, rest),
        "journal" => acc_cases_wal::answer(rt, &mut kinds.held, rest),
        "workload" => acc_cases_tpcc::answer(rt.alloc(), rest),
        _ => acc_cases_relations::answer(rt.alloc(), rest),
    }
}

/// What a line answers that asks about a design, a text or a sequent, or gives one.
fn answered_or_taken<R: AllocGlobal>(
    rt: &R,
    kinds: &mut Kinds,
    line: &str,
) -> Result<Option<String>, AllocError> {
    let (kind, rest) = first_word(line);
    match kind {
        "machine" => acc_cases_machine::answer(rt.alloc(), &mut kinds.design, rest),
        "text" => acc_cases_texts::answer(rt.alloc(), &mut kinds.base, rest),
        _ => acc_cases_searches::answer(rt.alloc(), &mut kinds.told, rest),
    }
}

/// What a line answers that asks about an accepted design.
fn answered_over<R: AllocGlobal>(
    rt: &R,
    accepted: &Accepted,
    line: &str,
) -> Result<String, AllocError> {
    let (kind, rest) = first_word(line);
    match kind {
        "state" => acc_cases_states::answer(rt.alloc(), accepted, rest),
        "replica" => acc_cases_replica::answer(rt.alloc(), accepted, rest),
        _ => acc_cases_engine::answer(rt.alloc(), accepted, rest),
    }
}

/// What a line answers that asks about the accepted design of the lines before, or gives one by two files.
fn answered_or_accepted<R: Files<File = File> + AllocGlobal>(
    rt: &R,
    accepted: &mut Option<Accepted>,
    line: &str,
) -> io::Result<Option<String>> {
    if acc_cases_accepted::take(rt, accepted, first_word(line).1)? {
        return Ok(None);
    }
    match accepted {
        Some(accepted) => Ok(Some(answered_over(rt, accepted, line)?)),
        None => Ok(Some(String::from_str(rt.alloc(), "no design")?)),
    }
}

/// Prints a line that asks about devices, a journal, a workload or relations, and what it answers.
pub fn tell<R: Files<File = File> + Print + AllocGlobal>(
    rt: &R,
    kinds: &mut Kinds,
    line: &str,
) -> io::Result<()> {
    let said = answered(rt, kinds, line)?;
    println!(rt; "{line} -> {said}")
}

/// Prints a line that asks about a design, a text or a sequent, or gives one, and what it answers.
pub fn tell_or_take<R: Print + AllocGlobal>(
    rt: &R,
    kinds: &mut Kinds,
    line: &str,
) -> io::Result<()> {
    let said = answered_or_taken(rt, kinds, line)?;
    say(rt, line, said)
}

/// Prints a line that asks about an accepted design, or gives one, and what it answers.
pub fn tell_or_accept<R: Files<File = File> + Print + AllocGlobal>(
    rt: &R,
    kinds: &mut Kinds,
    line: &str,
) -> io::Result<()> {
    let said = answered_or_accepted(rt, &mut kinds.accepted, line)?;
    say(rt, line, said)
}

/// Prints a line that asks about the design of a file, and the lines that it answers.
pub fn tell_lines<R: Files<File = File> + Print + AllocGlobal>(
    rt: &R,
    line: &str,
) -> io::Result<()> {
    let said = acc_cases_designs::answer(rt, first_word(line).1)?;
    print!(rt; "{line}\n{said}")
}
