//! What is said of an obligation that isn't proved.
ghost use Rattle.std.specs.Prelude.{◌++◌, codes};
ghost use Rattle.std.specs.List.{flat_map};
ghost use Rattle.acc_page.specs.Written.{Adds};
ghost use Rattle.acc_oblig_origins.specs.Origins.{origin_text};
ghost use Rattle.acc_cert_prove.specs.Lines.{fraction_text, point_text, line_of};

use acc_base::designs::Design;
use acc_base::sequents::Origin;
use acc_oblig_origins::origins::push_origin;
use acc_page::Page;

/// A space, and a fraction.
fn push_fraction(out: &mut Page, fraction: &(i128, i128))
    ensures { Adds out.old out.new (fraction_text fraction.now) }
{
    out.push(b" ");
    out.push_number(fraction.0);
    out.push(b"/");
    out.push_number(fraction.1)
}

/// The fractions of a point.
fn push_fractions(out: &mut Page, point: &[(i128, i128)])
    ensures { Adds out.old out.new (flat_map fraction_text point.now) }
{
    for fraction in point {
        push_fraction(out, fraction);
    }
}

/// Where an obligation that isn't proved comes from.
fn push_opened(out: &mut Page, d: &Design, origin: &Origin)
    ensures { Adds out.old out.new (codes "open " ++ (origin_text d.now origin.now ++ codes " ")) }
{
    out.push(b"open ");
    push_origin(out, d, origin);
    out.push(b" ")
}

/// The line of an obligation whose search ended by a word.
pub fn push_ended(out: &mut Page, d: &Design, origin: &Origin, end: &[u8])
    ensures { Adds out.old out.new (line_of d.now origin.now end.now) }
{
    push_opened(out, d, origin);
    out.push(end);
    out.push(b"\n")
}

/// The line of an obligation of whose search a leaf stays open at a point.
pub fn push_point(out: &mut Page, d: &Design, origin: &Origin, point: &[(i128, i128)])
    ensures { Adds out.old out.new (line_of d.now origin.now (point_text point.now)) }
{
    push_opened(out, d, origin);
    out.push(b"point");
    push_fractions(out, point);
    out.push(b"\n")
}
