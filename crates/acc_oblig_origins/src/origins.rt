//! How the place that an obligation comes from is spelled, and the place of a part of a certificate.
ghost use Rattle.std.specs.Prelude.{◌≡◌};
ghost use Rattle.std.specs.List.{flat_map};
ghost use Rattle.acc_print.specs.Designs.{side_text};
ghost use Rattle.acc_page.specs.Written.{Adds};
ghost use Rattle.acc_oblig_origins.specs.Origins.{dotted, spaced_number, place_text, clause_text, step_text, origin_text, path_text};

use acc_base::designs::{At, Design, Side};
use acc_base::sequents::Origin;
use acc_page::{Page, push_at};

/// A space, and a number.
fn push_spaced_number(out: &mut Page, number: u32)
    ensures { Adds out.old out.new (spaced_number number) }
{
    out.push(b" ");
    out.push_number(number)
}

/// A space, and a point, or a `-` where there is none.
fn push_place(out: &mut Page, d: &Design, at: Option<At>)
    ensures { Adds out.old out.new (place_text d.now at) }
{
    match at {
        Some(at) => {
            out.push(b" ");
            push_at(out, d, at)
        }
        None => out.push(b" -"),
    }
}

fn side_text(side: Side) -> &'static [u8]
    ensures { result.now ≡ side_text side }
{
    match side {
        Side::Next => b" next",
        Side::Undo => b" undo",
    }
}

/// Which clause of which rule, and of which held point.
fn push_clause(out: &mut Page, d: &Design, origin: &Origin)
    ensures { Adds out.old out.new (clause_text d.now origin.now) }
{
    out.push(b"S");
    out.push_number(origin.rule.number());
    push_place(out, d, origin.held);
    push_spaced_number(out, origin.clause)
}

/// Which path of which step, and which of its cases.
fn push_step(out: &mut Page, d: &Design, origin: &Origin)
    ensures { Adds out.old out.new (step_text d.now origin.now) }
{
    push_place(out, d, origin.at);
    out.push(side_text(origin.side));
    push_spaced_number(out, origin.path);
    push_spaced_number(out, origin.case)
}

/// Writes where an obligation comes from, as `RULE HELD CLAUSE AT SIDE PATH CASE`.
pub fn push_origin(out: &mut Page, d: &Design, origin: &Origin)
    ensures { Adds out.old out.new (origin_text d.now origin.now) }
{
    push_clause(out, d, origin);
    push_step(out, d, origin)
}

/// Numbers, each behind a dot.
fn push_dotted(out: &mut Page, numbers: &[u64])
    ensures { Adds out.old out.new (flat_map dotted numbers.now) }
{
    for number in numbers {
        out.push(b".");
        out.push_number(*number);
    }
}

/// Writes the path to a part of a certificate: its numbers with dots between them, or a `-` where there are none.
pub fn push_path(out: &mut Page, path: &[u64])
    ensures { Adds out.old out.new (path_text path.now) }
{
    match path {
        [first, rest @ ..] => {
            out.push_number(*first);
            push_dotted(out, rest)
        }
        [] => out.push(b"-"),
    }
}
