//! The lines that are printed of a play. Each public call appends a line to `out`, or, where memory is wanting, nothing.
ghost use Rattle.std.specs.Prelude.{◌≡◌, ◌++◌, false, codes, OnOk, OnErr};
ghost use Rattle.std.specs.List.{flat_map};
ghost use Rattle.std.specs.Fmt.{decimal};
ghost use Rattle.acc_base.specs.Items.{item_at};
ghost use Rattle.acc_base.specs.Plays.{Turns};
ghost use Rattle.acc_page.specs.Written.{Adds};
ghost use Rattle.acc_base.specs.Lines.{line, told_line, cause_text, holder_text, turn_text, spaced, outcome_text};

use acc_base::designs::Design;
use acc_base::machines::{Cause, Outcome, Reply, Turn};
use acc_page::{Page, push_at};
use std::alloc::AllocError;

/// A text, and then a number.
fn push_labelled(out: &mut Page, label: &[u8], number: u64)
    ensures { Adds out.old out.new (label.now ++ decimal number) }
{
    out.push(label);
    out.push_number(number)
}

/// A text as a line, whole or not at all.
fn push_line(out: &mut Vec<u8>, mut text: Page) -> Result<(), AllocError>
    ensures ok { OnOk result ((text.cut ≡ false) × (out.new.items ≡ out.old.items ++ line text.text)) }
    ensures err { OnErr result (out.new.items ≡ out.old.items) }
{
    text.push(b"\n");
    match text.finish() {
        Some(whole) => out.extend_from_slice(&whole),
        None => Err(AllocError),
    }
}

/// The line of a place: its number, and then what is said of it.
fn push_place(out: &mut Vec<u8>, place: u64, said: &[u8]) -> Result<(), AllocError>
    ensures ok { OnOk result (out.new.items ≡ out.old.items ++ line (decimal place ++ said.now)) }
    ensures err { OnErr result (out.new.items ≡ out.old.items) }
{
    let mut text = Page::new(*out.allocator());
    text.push_number(place);
    text.push(said);
    push_line(out, text)
}

fn push_cause(out: &mut Page, cause: Cause)
    ensures { Adds out.old out.new (cause_text cause) }
{
    match cause {
        Cause::Refused(number) => push_labelled(out, b"refused ", u64::from(number)),
        Cause::Range => out.push(b"range"),
        Cause::Limit => out.push(b"limit"),
        Cause::Asked => out.push(b"asked"),
        Cause::Victim => out.push(b"victim"),
        Cause::Crash => out.push(b"crash"),
    }
}

/// The place of the transaction with this number, if there is one.
fn place_of(places: &[u64], t: u64) -> Option<u64>
    ensures { result ≡ item_at t places.now }
{
    let at = t.checked_sub(1)?;
    places.get(at as usize).copied()
}

fn push_holder(out: &mut Page, holder: Option<u64>)
    ensures { Adds out.old out.new (holder_text holder) }
{
    match holder {
        Some(place) => out.push_number(place),
        None => {}
    }
}

fn push_blocked(out: &mut Page, holder: Option<u64>, entry: u32)
    ensures { Adds out.old out.new (codes " blocked by " ++ (holder_text holder ++ (codes " entry " ++ decimal entry))) }
{
    out.push(b" blocked by ");
    push_holder(out, holder);
    out.push(b" entry ");
    out.push_number(entry)
}

fn push_turn_text(out: &mut Page, d: &Design, places: &[u64], turn: Turn)
    ensures { Adds out.old out.new (turn_text d.now places.now turn) }
{
    match turn {
        Turn::Stepped(at) => {
            out.push(b" stepped ");
            push_at(out, d, at)
        }
        Turn::Blocked(holder, entry) => push_blocked(out, place_of(places, holder), entry),
        Turn::Turned(cause) => {
            out.push(b" turned ");
            push_cause(out, cause)
        }
        Turn::Back(at) => {
            out.push(b" back ");
            push_at(out, d, at)
        }
        Turn::Ended => out.push(b" ended"),
    }
}

/// Writes what a turn of a place did. The places are those of the transactions, by number from 1.
pub fn push_turn(
    out: &mut Vec<u8>,
    d: &Design,
    places: &[u64],
    place: u64,
    turn: Turn,
) -> Result<(), AllocError>
    ensures ok { OnOk result (out.new.items ≡ out.old.items ++ told_line d.now places.now (Turns place turn)) }
    ensures err { OnErr result (out.new.items ≡ out.old.items) }
{
    let mut text = Page::new(*out.allocator());
    text.push_number(place);
    push_turn_text(&mut text, d, places, turn);
    push_line(out, text)
}

/// Writes that a number of a place's undo step is out of range.
pub fn push_stuck(out: &mut Vec<u8>, place: u64) -> Result<(), AllocError>
    ensures ok { OnOk result (out.new.items ≡ out.old.items ++ line (decimal place ++ codes " stuck")) }
    ensures err { OnErr result (out.new.items ≡ out.old.items) }
{
    push_place(out, place, b" stuck")
}

/// Writes that a place had ended before.
pub fn push_over(out: &mut Vec<u8>, place: u64) -> Result<(), AllocError>
    ensures ok { OnOk result (out.new.items ≡ out.old.items ++ line (decimal place ++ codes " over")) }
    ensures err { OnErr result (out.new.items ≡ out.old.items) }
{
    push_place(out, place, b" over")
}

/// Writes that a place never began.
pub fn push_unbegun(out: &mut Vec<u8>, place: u64) -> Result<(), AllocError>
    ensures ok { OnOk result (out.new.items ≡ out.old.items ++ line (decimal place ++ codes " unbegun")) }
    ensures err { OnErr result (out.new.items ≡ out.old.items) }
{
    push_place(out, place, b" unbegun")
}

/// Writes that the transaction of a place hasn't ended.
pub fn push_unfinished(out: &mut Vec<u8>, place: u64) -> Result<(), AllocError>
    ensures ok { OnOk result (out.new.items ≡ out.old.items ++ line (decimal place ++ codes " unfinished")) }
    ensures err { OnErr result (out.new.items ≡ out.old.items) }
{
    push_place(out, place, b" unfinished")
}

/// Writes that a place can't begin, since the machine is full.
pub fn push_full(out: &mut Vec<u8>, place: u64) -> Result<(), AllocError>
    ensures ok { OnOk result (out.new.items ≡ out.old.items ++ line (decimal place ++ codes " full")) }
    ensures err { OnErr result (out.new.items ≡ out.old.items) }
{
    push_place(out, place, b" full")
}

/// Writes that a place has no reply on a disk that failed.
pub fn push_unsettled(out: &mut Vec<u8>, place: u64) -> Result<(), AllocError>
    ensures ok { OnOk result (out.new.items ≡ out.old.items ++ line (decimal place ++ codes " unsettled")) }
    ensures err { OnErr result (out.new.items ≡ out.old.items) }
{
    push_place(out, place, b" unsettled")
}

/// Numbers, each behind a space.
fn push_spaced(out: &mut Page, values: &[i64])
    ensures { Adds out.old out.new (flat_map spaced values.now) }
{
    for value in values {
        out.push(b" ");
        out.push_number(*value);
    }
}

fn push_outcome(out: &mut Page, outcome: &Outcome)
    ensures { Adds out.old out.new (outcome_text outcome.now) }
{
    match outcome {
        Outcome::Committed(values) => {
            out.push(b" committed");
            push_spaced(out, values.as_slice())
        }
        Outcome::Compensated(cause) => {
            out.push(b" compensated ");
            push_cause(out, *cause)
        }
    }
}

/// Writes the reply to the call at a place.
pub fn push_reply(out: &mut Vec<u8>, place: u64, reply: &Reply) -> Result<(), AllocError>
    ensures ok { OnOk result (out.new.items ≡ out.old.items ++ line (decimal place ++ outcome_text reply.now.outcome)) }
    ensures err { OnErr result (out.new.items ≡ out.old.items) }
{
    let mut text = Page::new(*out.allocator());
    text.push_number(place);
    push_outcome(&mut text, &reply.outcome);
    push_line(out, text)
}

/// Writes how many events there were.
pub fn push_events(out: &mut Vec<u8>, events: u64) -> Result<(), AllocError>
    ensures ok { OnOk result (out.new.items ≡ out.old.items ++ line (codes "events " ++ decimal events)) }
    ensures err { OnErr result (out.new.items ≡ out.old.items) }
{
    let mut text = Page::new(*out.allocator());
    push_labelled(&mut text, b"events ", events);
    push_line(out, text)
}
