//! What is told of a word that names no point that an entry may have.
ghost use Rattle.acc_formed.specs.WellFormed.{IsWellFormed};

use crate::obligations::File;
use acc_base::designs::{At, Design};
use acc_diagnose_words::{begin_note, end_note, push_quoted};
use acc_oblig_places::points_of;
use acc_page::{Page, push_at};
use std::alloc::{AllocError, Global};
use strsim::generic_levenshtein;

/// The name of a point, and how many letters tell it from a word.
#[derive(Drop)]
struct Near {
    name: Vec<u8>,
    letters: usize,
}

/// The name of a point, as TYPE.POINT.
fn name_at(alloc: Global, d: &Design, at: At) -> Result<Vec<u8>, AllocError> {
    let mut name = Page::new(alloc);
    push_at(&mut name, d, at);
    name.finish().ok_or(AllocError)
}

/// Adds a name behind those that are as near to a word, or nearer.
fn add_near(
    alloc: Global,
    near: &mut Vec<Near>,
    name: Vec<u8>,
    word: &[u8],
) -> Result<(), AllocError> {
    let letters = generic_levenshtein(alloc, &name, word)?;
    let farther = near.iter().position(|other| other.letters > letters);
    near.push(Near { name, letters })?;
    if let Some(place) = farther {
        near[place..].rotate_right(1);
    }
    Ok(())
}

/// The names of a design's points, those nearest to a word first.
#[tactic(auto, using(acc_oblig_places::proofs::ManyEntries::formed_but_entries))]
fn names_near(alloc: Global, d: &Design, word: &[u8]) -> Result<Vec<Near>, AllocError>
    requires { IsWellFormed d.now }
{
    let mut near = Vec::new(alloc);
    for q in &points_of(alloc, d)? {
        let name = name_at(alloc, d, q.at)?;
        add_near(alloc, &mut near, name, word)?;
    }
    Ok(near)
}

/// Says which points there are, where a word is none.
fn push_absent(out: &mut Page, design: File, word: &[u8], near: &[Near]) {
    begin_note(out, design.name);
    out.push(b"there is no point ");
    push_quoted(out, word);
    let mut before: &[u8] = b"; the points are ";
    for point in near {
        out.push(before);
        push_quoted(out, &point.name);
        before = b", ";
    }
    end_note(out, b"a point is named as TYPE.POINT")
}

/// Says that a word is the first point of its type, of which entries say less than of others.
fn push_first(out: &mut Page, design: File, word: &[u8]) {
    begin_note(out, design.name);
    push_quoted(out, word);
    out.push(b" is the first point of its type: no entry holds it, and none forbids its `undo`");
    end_note(
        out,
        b"name a point at which a transaction stands, and the point of a step that may not come then",
    )
}

/// Says why an entry can't have the point that a word names.
pub fn push_point(
    alloc: Global,
    out: &mut Page,
    d: &Design,
    design: File,
    word: &[u8],
) -> Result<(), AllocError>
    requires { IsWellFormed d.now }
{
    let near = names_near(alloc, d, word)?;
    match near.first() {
        Some(nearest) if nearest.letters == 0 => push_first(out, design, word),
        _ => push_absent(out, design, word, &near),
    }
    Ok(())
}
