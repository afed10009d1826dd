//! What is printed of a load and a mix, and how it ends.
ghost use Rattle.std.specs.Prelude.{◌≡◌, length, IfOk};
ghost use Rattle.acc_page.specs.Written.{Adds};
ghost use Rattle.acc_bench.specs.Answers.{load_line, mix_line, counts_text, conditions_line, bench_text};
ghost use Rattle.acc_bench.specs.Answers.{ending_by, bench_ending};

use crate::results::{Benched, FalseCondition, Loaded, Mixed, Ran};
use acc_journalled::{Answer, Ending, push_false};
use acc_page::Page;
use std::alloc::{AllocError, Global};

/// Writes the line of a load.
fn push_load(out: &mut Page, loaded: Loaded)
    ensures { Adds out.old out.new (load_line loaded) }
{
    out.push(b"load places ");
    out.push_number(loaded.places);
    out.push(b" events ");
    out.push_number(loaded.events);
    out.push(b"\n");
}

/// Writes the line of a mix, with how many events there were at the end.
fn push_mix(out: &mut Page, mixed: Mixed, events: u64)
    ensures { Adds out.old out.new (mix_line mixed events) }
{
    out.push(b"mix committed ");
    out.push_number(mixed.committed);
    out.push(b" compensated ");
    out.push_number(mixed.compensated);
    out.push(b" blocked ");
    out.push_number(mixed.blocked);
    out.push(b" victims ");
    out.push_number(mixed.victims);
    out.push(b" events ");
    out.push_number(events);
    out.push(b"\n");
}

/// Writes the lines of a load and of a mix.
fn push_counts(out: &mut Page, loaded: Loaded, mixed: Mixed, events: u64)
    ensures { Adds out.old out.new (counts_text loaded mixed events) }
{
    push_load(out, loaded);
    push_mix(out, mixed, events);
}

/// The lines of a load and of a mix.
pub fn count_lines(alloc: Global, ran: &Ran) -> Result<Vec<u8>, AllocError>
    ensures { IfOk result (λ t. t.items ≡ counts_text ran.now.loaded ran.now.mixed (length ran.now.state.world.events)) }
{
    let mut out = Page::new(alloc);
    let events = ran.state.events().len() as u64;
    push_counts(&mut out, ran.loaded, ran.mixed, events);
    match out.finish() {
        Some(text) => Ok(text),
        None => Err(AllocError),
    }
}

/// Writes that each condition is true, or the line of the lowest that is false.
fn push_conditions(out: &mut Page, against: &Option<FalseCondition>)
    ensures { Adds out.old out.new (conditions_line against.now) }
{
    match against {
        Some(found) => push_false(out, found.number, &found.key),
        None => out.push(b"conditions true\n"),
    }
}

/// How it ends, by the condition that is false and whether each call began.
fn ending_by(against: &Option<FalseCondition>, all_begun: bool) -> Ending
    ensures { result ≡ ending_by against.now all_begun }
{
    match against {
        Some(_) => Ending::ConditionFalse,
        None => {
            if all_begun {
                Ending::Done
            } else {
                Ending::Unbegun
            }
        }
    }
}

/// What is printed of a load and a mix, three lines; and how it ends: as done; so that a condition is false, if one is; and else so that a
/// call couldn't begin, if one couldn't.
pub fn bench_answer(alloc: Global, benched: &Benched) -> Result<Answer, AllocError>
    ensures text { IfOk result (λ a. a.text.items ≡ bench_text benched.now) }
    ensures ending { IfOk result (λ a. a.ending ≡ bench_ending benched.now) }
{
    let mut out = Page::new(alloc);
    let events = benched.history.len() as u64;
    push_counts(&mut out, benched.loaded, benched.mixed, events);
    push_conditions(&mut out, &benched.against);
    let all_begun = benched.loaded.all_begun && benched.mixed.all_begun;
    match out.finish() {
        Some(text) => Ok(Answer {
            ending: ending_by(&benched.against, all_begun),
            text,
        }),
        None => Err(AllocError),
    }
}
