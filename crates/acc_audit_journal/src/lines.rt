//! The line of a judgement.
ghost use Rattle.std.specs.Prelude.{◌≡◌, ◌++◌, ℕ, ◌∷◌, codes};
ghost use Rattle.std.specs.List.{flat_map};
ghost use Rattle.std.specs.Fmt.{decimal};
ghost use Rattle.acc_base.specs.Lines.{spaced};
ghost use Rattle.acc_page.specs.Written.{Adds};
ghost use Rattle.acc_audit_journal.specs.JudgementLines.{place_text, judgement_line};
ghost use Rattle.acc_audit_journal.specs.declared.journals.Judgement.TheVariants.{Clean, False, Large};

use crate::journals::Judgement;
use acc_base::sequences::Seq;
use acc_page::Page;

/// Numbers, each behind a space.
fn push_values(out: &mut Page, values: &[i64])
    ensures { Adds out.old out.new (flat_map spaced values.now) }
{
    for value in values {
        out.push(b" ");
        out.push_number(*value);
    }
}

/// The place, the transaction and the clause's number.
fn push_place(out: &mut Page, place: u64, t: u64, clause: u32)
    ensures { Adds out.old out.new (place_text place t clause) }
{
    out.push_number(place);
    out.push(b" ");
    out.push_number(t);
    out.push(b" ");
    out.push_number(clause);
}

/// A text, and then a number.
fn push_labelled(out: &mut Page, label: &[u8], number: u64)
    ensures { Adds out.old out.new (label.now ++ decimal number) }
{
    out.push(label);
    out.push_number(number);
}

/// That nothing is found.
fn push_clean(out: &mut Page, events: u64)
    ensures { Adds out.old out.new (judgement_line (Clean events)) }
{
    push_labelled(out, b"clean events ", events);
    out.push(b"\n");
}

/// That a clause is false, with the values that show it.
fn push_false(out: &mut Page, place: u64, t: u64, clause: u32, values: &Seq<i64>)
    ensures { Adds out.old out.new (judgement_line (False place t clause values.now)) }
{
    out.push(b"false ");
    push_place(out, place, t, clause);
    push_values(out, values.as_slice());
    out.push(b"\n");
}

/// That a clause can't be told of.
fn push_large(out: &mut Page, place: u64, t: u64, clause: u32)
    ensures { Adds out.old out.new (judgement_line (Large place t clause)) }
{
    out.push(b"large ");
    push_place(out, place, t, clause);
    out.push(b"\n");
}

/// Writes the line of a judgement.
pub fn push_judgement(out: &mut Page, judgement: &Judgement)
    ensures { Adds out.old out.new (judgement_line judgement.now) }
{
    match judgement {
        Judgement::Clean(events) => push_clean(out, *events),
        Judgement::False(place, t, clause, values) => {
            push_false(out, *place, *t, *clause, values)
        }
        Judgement::Large(place, t, clause) => push_large(out, *place, *t, *clause),
    }
}
