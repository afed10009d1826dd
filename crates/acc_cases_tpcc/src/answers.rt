//! What the questions answer.
use crate::numbers::{mix_of, scale_of};
use acc_cases_words::words::{number, parted, push_lines};
use rand_core::utils::NextWord;
use rand_pcg::Pcg32;
use std::alloc::{AllocError, Global};
use std::fmt::Write;
use tpcc_gen::{Words, load, mix, order};

/// The first words of PCG32.
fn pcg_words(alloc: Global, words: &str) -> Result<Vec<u32>, AllocError> {
    let (state, rest) = parted(words, " ");
    let (stream, count) = parted(rest, " ");
    let mut generator = Pcg32::new(number(state), number(stream));
    let mut found = Vec::new(alloc);
    for _ in 0..number(count) {
        found.push(generator.next_word())?;
    }
    Ok(found)
}

/// The first words that a workload is drawn from.
fn first_words(alloc: Global, words: &str) -> Result<Vec<u64>, AllocError> {
    let (start, count) = parted(words, " ");
    let mut drawn = Words::new(number(start));
    let mut found = Vec::new(alloc);
    for _ in 0..number(count) {
        found.push(drawn.random(0, u64::from(u32::MAX)))?;
    }
    Ok(found)
}

/// Pushes the first words of PCG32.
fn push_pcg(alloc: Global, out: &mut String, words: &str) -> Result<(), AllocError> {
    let found = pcg_words(alloc, words)?;
    write!(out, "{:?}", found.as_slice())
}

/// Pushes the first words that a workload is drawn from.
fn push_words(alloc: Global, out: &mut String, words: &str) -> Result<(), AllocError> {
    let found = first_words(alloc, words)?;
    write!(out, "{:?}", found.as_slice())
}

/// The line of this number, from 1, and the whole text at 0.
fn line_of(text: &[u8], at: u64) -> &[u8] {
    match at.checked_sub(1) {
        Some(before) => text
            .split(|b| *b == b'\n')
            .nth(before as usize)
            .unwrap_or(b""),
        None => text,
    }
}

/// Pushes the lines of a load, or one of them.
fn push_load(alloc: Global, out: &mut String, words: &str) -> Result<(), AllocError> {
    let (scale, rest) = scale_of(words);
    let text = load(alloc, scale.warehouses, scale.items, scale.customers)?;
    push_lines(out, line_of(text.as_slice(), number(rest)))
}

/// Pushes the lines of a mix.
fn push_mix(alloc: Global, out: &mut String, words: &str) -> Result<(), AllocError> {
    let (scale, rest) = scale_of(words);
    let asked = mix_of(rest);
    let text = mix(
        alloc,
        scale.warehouses,
        scale.items,
        scale.customers,
        asked.count,
        asked.start,
    )?;
    push_lines(out, text.as_slice())
}

/// Pushes the numbers of an order.
fn push_order(alloc: Global, out: &mut String, words: &str) -> Result<(), AllocError> {
    let (scale, rest) = scale_of(words);
    let asked = mix_of(rest);
    let numbers = order(
        alloc,
        scale.warehouses,
        scale.items,
        scale.customers,
        asked.count,
        asked.start,
    )?;
    write!(out, "{:?}", numbers.as_slice())
}

/// Pushes what a question answers.
fn push_answer(alloc: Global, out: &mut String, question: &str) -> Result<(), AllocError> {
    let (verb, rest) = parted(question, " ");
    match verb {
        "pcg" => push_pcg(alloc, out, rest),
        "words" => push_words(alloc, out, rest),
        "load" => push_load(alloc, out, rest),
        "mix" => push_mix(alloc, out, rest),
        "order" => push_order(alloc, out, rest),
        _ => out.push_str("no question"),
    }
}

/// What a question answers.
pub fn answer(alloc: Global, question: &str) -> Result<String, AllocError> {
    let mut out = String::new(alloc);
    push_answer(alloc, &mut out, question)?;
    Ok(out)
}
