//! Cases of the splits and instances of sequents, of searches for proofs, of whether a proof proves a sequent, and of certificates that are
//! read and written: what each question answers.
//!
//! `design JSON`, `sequent JSON` and `hints JSON` give the design, the sequent and the hints of the questions behind them, as
//! `acc_cases_sequents` says. `lists` answers the splits and then the instances, as nodes of a certificate without multipliers; `counts`
//! answers how many there are. `search` answers whether the sequent is proved, and whether the proof is accepted; or the point and the
//! relations of an open leaf, as forms of splits, each with `<=` or `=` before them all; or why nothing is found. `proof` answers the
//! nodes of the proof.
//!
//! `read TEXT` answers what a certificate is written as, and `proves JSON` whether its first proof is one of the sequent. `certificate
//! JSON` gives a certificate, and each `next` behind it asks whether the next of its proofs is one of the sequent.
#![tactic(auto)]

mod certificates;
mod judged;
mod listed;
mod searched;
mod texts;
mod told;

use std::alloc::{AllocError, Global};
pub use told::Told;

/// Pushes what a question answers.
fn push_answer(
    alloc: Global,
    out: &mut String,
    told: &Told,
    question: &str,
) -> Result<(), AllocError> {
    let (verb, text) = question.split_once(' ').unwrap_or((question, ""));
    match verb {
        "lists" => listed::push_lists(alloc, out, &told.given),
        "counts" => listed::push_counts(alloc, out, &told.given),
        "search" => searched::push_end(alloc, out, &told.given),
        "proof" => searched::push_proof(alloc, out, &told.given),
        "read" => certificates::push_read(alloc, out, text),
        "proves" => certificates::push_proved(alloc, out, &told.given, text),
        "certificate" => certificates::push_count(out, told.cert.as_ref()),
        "next" => judged::push_judged(alloc, out, &told.given, told.proof(), "a proof"),
        _ => out.push_str("no question"),
    }
}

/// What the question of a line answers; none of a line that gives a design, a sequent or hints.
pub fn answer(alloc: Global, told: &mut Told, line: &str) -> Result<Option<String>, AllocError> {
    told.take(alloc, line)?;
    if told.given.is_told(line) {
        return Ok(None);
    }
    let mut out = String::new(alloc);
    push_answer(alloc, &mut out, told, line)?;
    Ok(Some(out))
}
