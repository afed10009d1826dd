//! What is told of a design whose obligations aren't all proved.
ghost use Rattle.acc_formed.specs.WellFormed.{IsWellFormed};

use crate::obligations::{File, push_assertion, push_wide};
use acc_accept::obligations;
use acc_base::bounds::{MOST_INSTANCES, MOST_SPLITS};
use acc_base::designs::{At, Design, Side};
use acc_base::sequents::{Origin, Rule, Sequent};
use acc_cert_prove::{Found, SearchError, searched};
use acc_diagnose_cert::obligation_hint;
use acc_diagnose_openings::{push_cure, push_unspoken, push_values};
use acc_diagnose_words::{begin_note, end_note, push_with};
use acc_elim_systems::MOST_RELATIONS;
use acc_oblig_goals::ObligError;
use acc_oblig_origins::origins::push_origin;
use acc_page::{Page, push_at};
use std::alloc::{AllocError, Global};

/// `open O`, the words with which the line of an open obligation begins.
fn head_of(alloc: Global, d: &Design, origin: &Origin) -> Result<Vec<u8>, AllocError> {
    let mut head = Page::new(alloc);
    head.push(b"open ");
    push_origin(&mut head, d, origin);
    head.finish().ok_or(AllocError)
}

/// Whether a text begins with these words, and goes on with a space.
fn begins_with(text: &[u8], words: &[u8]) -> bool {
    match text.get(words.len()) {
        Some(next) => *next == b' ' && text.starts_with(words),
        None => false,
    }
}

/// What stands behind the first line of a text.
fn behind_line(text: &[u8]) -> &[u8] {
    match text.iter().position(|b| *b == b'\n') {
        Some(end) => &text[end + 1..],
        None => &[],
    }
}

/// Says that a search has too many instances, or splits.
fn push_crowded(out: &mut Page) {
    push_with(
        out,
        b"the search has over ",
        MOST_INSTANCES,
        b" instances or ",
    );
    push_with(out, b"over ", MOST_SPLITS, b" splits")
}

/// Says how the search for an obligation's proof ended, and at which values the assertion fails, where these are known.
fn push_end(
    alloc: Global,
    out: &mut Page,
    d: &Design,
    origin: &Origin,
    end: &Result<Found, SearchError>,
) -> Result<(), AllocError> {
    match end {
        Ok(Found::Proved(_)) => out.push(b"is proved now"),
        Ok(Found::Unproved(leaf, point)) => {
            out.push(b"nothing that is known rules out that it fails");
            let (leaf, point) = (leaf.as_slice(), point.as_slice());
            return push_values(alloc, out, b", at ", d, origin, leaf, point);
        }
        Err(SearchError::Crowded) => push_crowded(out),
        Err(SearchError::Wide) => {
            out.push(b"the search came to a number more than 2^120 away from 0");
        }
        Err(SearchError::Many) => push_with(
            out,
            b"the search came to more than ",
            MOST_RELATIONS,
            b" relations in one system",
        ),
        Err(SearchError::Memory) => return Err(AllocError),
    }
    Ok(())
}

/// What helps with an open obligation: what is to be written for it, or else what helps for its rule.
fn hint_of(
    alloc: Global,
    d: &Design,
    origin: &Origin,
    end: &Result<Found, SearchError>,
) -> Result<Vec<u8>, AllocError> {
    let mut hint = Page::new(alloc);
    match end {
        Ok(Found::Unproved(leaf, point)) => {
            push_cure(
                alloc,
                &mut hint,
                d,
                origin,
                leaf.as_slice(),
                point.as_slice(),
            )?;
        }
        Ok(Found::Proved(_)) | Err(SearchError::Crowded | SearchError::Wide | SearchError::Many) =>
            { push_cure(alloc, &mut hint, d, origin, &[], &[])? }
        Err(SearchError::Memory) => return Err(AllocError),
    }
    if hint.is_empty() {
        hint.push(obligation_hint(origin.rule));
    }
    Ok(hint.into_bytes())
}

/// The entry that an open obligation asks for: of the held point, of the point of the step, and of the side. None where no entry may be
/// so: a start point isn't held, and its `undo` isn't forbidden.
fn asked_of(origin: &Origin) -> Option<(At, At, Side)> {
    if origin.rule != Rule::Spares {
        return None;
    }
    let (held, at) = (origin.held?, origin.at?);
    if held.point == 0 || (at.point == 0 && origin.side == Side::Undo) {
        None
    } else {
        Some((held, at, origin.side))
    }
}

/// Says which command advises an entry, unless the same was said of the obligation before.
fn push_asking(
    out: &mut Page,
    d: &Design,
    design: File,
    before: Option<(At, At, Side)>,
    asked: Option<(At, At, Side)>,
) {
    match asked {
        Some(question) if before != Some(question) => push_question(out, d, design, question),
        Some(_) | None => {}
    }
}

/// The name of a file as it can be typed; a word for it, where it has bytes that can't be printed.
fn typed_name(name: &[u8]) -> &[u8] {
    if name.iter().all(|byte| (b' '..=b'~').contains(byte)) {
        name
    } else {
        b"DESIGN"
    }
}

/// Says which command advises an entry for a held point and the step of another.
fn push_question(out: &mut Page, d: &Design, design: File, question: (At, At, Side)) {
    let (held, at, side) = question;
    begin_note(out, design.name);
    out.push(b"`acc advise ");
    out.push(typed_name(design.name));
    out.push(b" ");
    push_at(out, d, held);
    out.push(b" ");
    push_at(out, d, at);
    out.push(match side {
        Side::Next => b" next`",
        Side::Undo => b" undo`",
    });
    out.push(b" tells which entry lets this step go there, and forbids as little as can be shown");
    end_note(out, b"")
}

/// Says which assertion isn't shown, by which path, and what ended the search for a proof.
fn push_opening(
    alloc: Global,
    out: &mut Page,
    d: &Design,
    design: File,
    q: &Sequent,
    head: &[u8],
) -> Result<(), AllocError>
    requires { IsWellFormed d.now }
{
    push_assertion(alloc, out, d, design, &q.origin)?;
    let end = searched(alloc, d, q);
    let hint = hint_of(alloc, d, &q.origin, &end)?;
    begin_note(out, design.name);
    out.push(head);
    out.push(b": ");
    push_end(alloc, out, d, &q.origin, &end)?;
    end_note(out, &hint);
    Ok(())
}

/// Says of each obligation that has a line in what was printed why it is open, in their order.
fn push_openings(
    alloc: Global,
    out: &mut Page,
    d: &Design,
    design: File,
    sequents: &[Sequent],
    printed: &[u8],
) -> Result<(), AllocError>
    requires { IsWellFormed d.now }
{
    let mut rest = printed;
    let mut before = None;
    for q in sequents {
        let head = head_of(alloc, d, &q.origin)?;
        if begins_with(rest, &head) {
            push_opening(alloc, out, d, design, q, &head)?;
            let asked = asked_of(&q.origin);
            push_asking(out, d, design, before, asked);
            before = asked;
            rest = behind_line(rest);
        }
    }
    Ok(())
}

/// Says which columns no assertion of a design speaks of, if there are some.
fn push_columns(alloc: Global, out: &mut Page, d: &Design, design: File) {
    let mut columns = Page::new(alloc);
    push_unspoken(&mut columns, d);
    if columns.is_empty() {
        return;
    }
    begin_note(out, design.name);
    out.push(b"no assertion speaks of these columns, so nothing is proved of what they hold: ");
    out.push_page(&columns);
    end_note(out, b"")
}

/// Says which obligations of a design stay open, by the lines that were printed of them, and which columns no assertion speaks of; or which
/// obligation has a number that is too large. The search is made anew for those that have a line.
#[tactic(auto, using(acc_oblig_places::proofs::ManyEntries::formed_but_entries))]
pub fn push_unproved(
    alloc: Global,
    out: &mut Page,
    d: &Design,
    design: File,
    printed: &[u8],
) -> Result<(), AllocError>
    requires { IsWellFormed d.now }
{
    match obligations(alloc, d) {
        Ok(sequents) => {
            push_openings(alloc, out, d, design, sequents.as_slice(), printed)?;
            push_columns(alloc, out, d, design);
        }
        Err(ObligError::Wide(origin)) => {
            push_assertion(alloc, out, d, design, &origin)?;
            push_wide(out, design);
        }
        Err(ObligError::Memory) => return Err(AllocError),
    }
    Ok(())
}
