//! What is told where a journal shows a clause false.
ghost use Rattle.acc_formed.specs.WellFormed.{IsWellFormed};

use crate::obligations::File;
use acc_base::designs::{At, Design};
use acc_base::forms::Clause;
use acc_base::machines::{Event, Frame};
use acc_base::names::type_name;
use acc_base::sequences::{Seq, Text};
use acc_diagnose_cert::clause_mark;
use acc_diagnose_faults::tokens_of;
use acc_diagnose_words::push_report;
use acc_page::{Page, push_at};
use acc_plain::{Machine, PlainError};
use acc_store::MapStore;
use acc_wal::{WalError, counted};
use std::alloc::{AllocError, Global};

/// So many events are followed at most: more than a file that is read has.
const MOST_FOLLOWED: usize = 1 << 29;

/// Why a clause can't be told of.
const LARGE: &[u8] =
    b": there are more than 2^20 tuples of values for its names, or a number comes to more than 2^120";

/// What the line of an audit tells: of a clause that is false, or can't be told of, behind so many events, by its transaction, or 0, and
/// its number; and the values that show it, as they are spelled.
#[derive(Clone, Copy)]
struct AuditLine<'a> {
    is_false: bool,
    place: u64,
    t: u64,
    clause: u32,
    values: &'a str,
}

/// The first word, and what stands behind it.
fn split_word(text: &str) -> (&str, &str) {
    text.split_once(" ").unwrap_or((text, ""))
}

/// What is told behind the first word of a line.
fn numbers_in(is_false: bool, text: &str) -> Option<AuditLine<'_>> {
    let (place, behind) = split_word(text);
    let (t, behind) = split_word(behind);
    let (clause, values) = split_word(behind);
    Some(AuditLine {
        is_false,
        place: place.parse::<u64>().ok()?,
        t: t.parse::<u64>().ok()?,
        clause: clause.parse::<u32>().ok()?,
        values,
    })
}

/// What a line tells, if it is one that an audit prints of a clause.
fn found_in(line: &str) -> Option<AuditLine<'_>> {
    match line.strip_prefix("false ") {
        Some(behind) => numbers_in(true, behind),
        None => numbers_in(false, line.strip_prefix("large ")?),
    }
}

/// The transaction that an event is of: the one that it begins, where so many began before it.
fn transaction_of(event: &Event, begun: u64) -> u64 {
    match event {
        Event::Begin(_) => begun.saturating_add(1),
        Event::Step(t) | Event::Abort(t, _) | Event::Undo(t) => *t,
    }
}

/// How many of some events begin a transaction.
fn begun_by(events: &[Event]) -> u64 {
    events
        .iter()
        .filter(|event| matches!(event, Event::Begin(_)))
        .count() as u64
}

/// The frame of a transaction that isn't ended.
fn frame_of<'a>(machine: &'a Machine<'_, MapStore>, t: u64) -> Option<&'a Frame> {
    machine.unfinished().iter().find(|frame| frame.t == t)
}

/// Does an event more; false where the machine doesn't allow it.
fn follow(machine: &mut Machine<'_, MapStore>, event: &Event) -> Result<bool, AllocError> {
    if machine.events().len() >= MOST_FOLLOWED {
        return Ok(false);
    }
    match machine.take(event) {
        Ok(taken) => Ok(taken),
        Err(PlainError::Memory) => Err(AllocError),
    }
}

/// Does events, one after the other; false where the machine doesn't allow one.
fn follow_all(machine: &mut Machine<'_, MapStore>, events: &[Event]) -> Result<bool, AllocError> {
    for event in events {
        if !follow(machine, event)? {
            return Ok(false);
        }
    }
    Ok(true)
}

/// Values with their names; as many as there are of both.
fn push_named(out: &mut Page, names: &[Text], values: &str, mut before: &'static [u8]) {
    if values.is_empty() {
        return;
    }
    for (name, value) in names.iter().zip(values.split(' ')) {
        out.push(before);
        out.push(name.as_slice());
        out.push(b" = ");
        out.push(value.as_bytes());
        before = b", ";
    }
}

/// A frame's locals with their names, and its number.
fn push_locals(out: &mut Page, d: &Design, frame: &Frame) {
    if let Some(ty) = d.types.as_slice().get(frame.ty as usize) {
        for (name, value) in ty.locals.as_slice().iter().zip(frame.locals.as_slice()) {
            out.push(name.as_slice());
            out.push(b" = ");
            out.push_number(*value);
            out.push(b", ");
        }
    }
    out.push(b"self = ");
    out.push_number(frame.t);
}

/// What happened last: the event, its transaction, its type, and the point where it stood before.
fn push_event(out: &mut Page, d: &Design, event: &Event, place: u64, t: u64, stood: Option<At>) {
    out.push(b"event ");
    out.push_number(place);
    out.push(match event {
        Event::Begin(_) => b" begins transaction ".as_slice(),
        Event::Step(_) => b" is a step of transaction ".as_slice(),
        Event::Abort(_, _) => b" turns transaction ".as_slice(),
        Event::Undo(_) => b" is an undo step of transaction ".as_slice(),
    });
    out.push_number(t);
    match (event, stood) {
        (Event::Begin(call), _) => {
            out.push(b", a `");
            out.push(type_name(d, call.get().ty));
            out.push(b"`");
        }
        (Event::Step(_) | Event::Abort(_, _) | Event::Undo(_), Some(at)) => {
            out.push(b", which stood at `");
            push_at(out, d, at);
            out.push(b"`");
        }
        (Event::Step(_) | Event::Abort(_, _) | Event::Undo(_), None) => {}
    }
}

/// The clauses that are asserted at a point, or at all times where none is named.
fn clauses_at(d: &Design, held: Option<At>) -> &[Clause] {
    match held {
        None => d.always.as_slice(),
        Some(at) => match d.point(at) {
            Some(point) => point.clauses.as_slice(),
            None => &[],
        },
    }
}

/// Says of a clause that it is false, or can't be told of, behind so many events, and with which values.
fn push_found(out: &mut Page, d: &Design, found: AuditLine, frame: Option<&Frame>) {
    let held = frame.map(|frame| frame.at());
    out.push(if found.is_false {
        b"this is false behind event ".as_slice()
    } else {
        b"this can't be told of behind event ".as_slice()
    });
    out.push_number(found.place);
    if let Some(at) = held {
        out.push(b", where transaction ");
        out.push_number(found.t);
        out.push(b" stands at `");
        push_at(out, d, at);
        out.push(b"`");
    }
    if let Some(clause) = clauses_at(d, held).get((found.clause as usize).saturating_sub(1)) {
        push_named(out, clause.vars.as_slice(), found.values, b", with ");
    }
    if let Some(frame) = frame {
        out.push(b"; there ");
        push_locals(out, d, frame);
    }
    if !found.is_false {
        out.push(LARGE);
    }
}

/// Says which clause a line tells of, where it stands in the design, and what happened last before it.
fn push_clause(
    alloc: Global,
    out: &mut Page,
    d: &Design,
    design: File,
    events: &[Event],
    found: AuditLine,
) -> Result<(), AllocError>
    requires { IsWellFormed d.now }
{
    let Some((event, before)) = events.split_last() else {
        return Ok(());
    };
    let mut machine = new_machine(alloc, d);
    let t = transaction_of(event, begun_by(before));
    if !follow_all(&mut machine, before)? {
        return Ok(());
    }
    let stood = frame_of(&machine, t).map(|frame| frame.at());
    if !follow(&mut machine, event)? {
        return Ok(());
    }
    let frame = frame_of(&machine, found.t);
    let held = frame.map(|frame| frame.at());
    let tokens = tokens_of(alloc, design.text)?;
    if let Some(mut mark) = clause_mark(alloc, design.text, tokens.as_slice(), held, found.clause) {
        push_found(&mut mark.spot.what, d, found, frame);
        push_event(&mut mark.spot.hint, d, event, found.place, t, stood);
        push_report(out, design.name, design.text, mark.line, &mark.spot);
    }
    Ok(())
}

/// A machine that has done nothing.
#[tactic(auto, using(acc_formed::proofs::Runs::well_formed_runs))]
fn new_machine(alloc: Global, d: &Design) -> Machine<'_, MapStore>
    requires { IsWellFormed d.now }
{
    Machine::new(alloc, d, MapStore::new(alloc))
}

/// The events of a journal's bytes; none where they aren't one.
fn events_of(alloc: Global, journal: &[u8]) -> Result<Seq<Event>, AllocError> {
    match counted(alloc, journal) {
        Ok(found) => Ok(found.events),
        Err(error) => match error {
            WalError::Memory => Err(AllocError),
            WalError::NotJournal | WalError::OtherVersion(_) | WalError::Damaged(_) => Ok(Seq::new(
                alloc,
            )),
            WalError::Exists | WalError::Disk | WalError::Spent => Ok(Seq::new(alloc)),
        },
    }
}

/// Says which clause an audit found false, or couldn't tell of, by the line that was printed: the clause as it stands in the design, the
/// transaction at whose point it is asserted, the values, and what happened last. The journal is read anew.
pub fn push_audit(
    alloc: Global,
    out: &mut Page,
    d: &Design,
    design: File,
    journal: File,
    printed: &[u8],
) -> Result<(), AllocError>
    requires { IsWellFormed d.now }
{
    let line = String::from_utf8_lossy(alloc, printed)?;
    let Some(found) = found_in(line.trim_end()) else {
        return Ok(());
    };
    let events = events_of(alloc, journal.text)?;
    match events.as_slice().get(..found.place as usize) {
        Some(front) => push_clause(alloc, out, d, design, front, found),
        None => Ok(()),
    }
}
