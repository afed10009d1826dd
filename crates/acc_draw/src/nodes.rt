//! Points and ends as nodes.
ghost use Rattle.std.specs.Prelude.{◌≡◌};
ghost use Rattle.std.specs.List.{flat_map};
ghost use Rattle.acc_page.specs.Written.{Adds};
ghost use Rattle.acc_draw.specs.Pictures.{quoted, point_node, two_words, point_line, end_line};

use acc_base::designs::Point;
use acc_page::Page;

/// A text in quotes.
#[tactic(auto, unfolding(crate::specs::Pictures::quoted))]
pub fn push_quoted(out: &mut Page, text: &[u8])
    ensures { Adds out.old out.new (quoted text.now) }
{
    out.push(b"\"");
    out.push(text);
    out.push(b"\"")
}

/// A point of a type, as `TYPE.POINT` in quotes.
#[tactic(auto, unfolding(crate::specs::Pictures::point_node))]
pub fn push_point(out: &mut Page, ty: &[u8], point: &[u8])
    ensures { Adds out.old out.new (point_node ty.now point.now) }
{
    out.push(b"\"");
    out.push(ty);
    out.push(b".");
    out.push(point);
    out.push(b"\"")
}

/// Two words in quotes: of an end of a type's transactions, `TYPE END`.
#[tactic(auto, unfolding(crate::specs::Pictures::two_words))]
pub fn push_two_words(out: &mut Page, first: &[u8], second: &[u8])
    ensures { Adds out.old out.new (two_words first.now second.now) }
{
    out.push(b"\"");
    out.push(first);
    out.push(b" ");
    out.push(second);
    out.push(b"\"")
}

/// The statement of a point's node.
#[tactic(auto, unfolding(crate::specs::Pictures::point_line))]
fn push_point_line(out: &mut Page, ty: &[u8], point: &Point)
    ensures { Adds out.old out.new (point_line ty.now point.now) }
{
    push_point(out, ty, point.name.as_slice());
    out.push(b" [label=");
    push_quoted(out, point.name.as_slice());
    out.push(b"]\n")
}

/// The statements of points' nodes.
pub fn push_point_lines(out: &mut Page, ty: &[u8], points: &[Point])
    ensures { Adds out.old out.new (flat_map (point_line ty.now) points.now) }
{
    for point in points {
        push_point_line(out, ty, point);
    }
}

/// The statement of an end's node.
#[tactic(auto, unfolding(crate::specs::Pictures::end_line))]
pub fn push_end_line(out: &mut Page, ty: &[u8], ending: &[u8])
    ensures { Adds out.old out.new (end_line ty.now ending.now) }
{
    push_two_words(out, ty, ending);
    out.push(b" [label=");
    push_quoted(out, ending);
    out.push(b", shape=plaintext]\n")
}
