//! Paths as arrows.
ghost use Rattle.std.specs.Prelude.{◌≡◌, slice_get};
ghost use Rattle.std.specs.List.{flat_map};
ghost use Rattle.acc_base.specs.Lines.{point_name};
ghost use Rattle.acc_page.specs.Written.{Adds};
ghost use Rattle.acc_draw.specs.Pictures.{target_node, refusal_text, side_word, side_style, path_label, path_line, path_lines_from, point_arrows};

use crate::nodes::{push_point, push_two_words};
use acc_base::designs::{Point, Side, TxType};
use acc_base::steps::{Path, Target};
use acc_page::Page;

/// The name of a point of a type, and none where it isn't there.
fn point_name(ty: &TxType, number: u32) -> &[u8]
    ensures { result.now ≡ point_name (slice_get ty.now.points number) }
{
    match ty.points.as_slice().get(number as usize) {
        Some(point) => point.name.as_slice(),
        None => b"",
    }
}

/// Where a path of a point leads.
fn push_target(out: &mut Page, ty: &TxType, point: &Point, target: Target)
    ensures { Adds out.old out.new (target_node ty.now point.now target) }
{
    let name = ty.name.as_slice();
    match target {
        Target::Point(number) => push_point(out, name, point_name(ty, number)),
        Target::Commit => push_two_words(out, name, b"committed"),
        Target::Undone => push_two_words(out, name, b"compensated"),
        Target::Refuse(_) => push_point(out, name, point.name.as_slice()),
    }
}

/// What a refusal is told with.
fn push_refusal(out: &mut Page, target: Target)
    ensures { Adds out.old out.new (refusal_text target) }
{
    match target {
        Target::Point(_) | Target::Commit | Target::Undone => out.push(b""),
        Target::Refuse(number) => {
            out.push(b" refuse ");
            out.push_number(number)
        }
    }
}

/// The word of a step.
pub fn side_word(side: Side) -> &'static [u8]
    ensures { result.now ≡ side_word side }
{
    match side {
        Side::Next => b"next",
        Side::Undo => b"undo",
    }
}

/// How an arrow's statement ends.
fn side_style(side: Side) -> &'static [u8]
    ensures { result.now ≡ side_style side }
{
    match side {
        Side::Next => b"]",
        Side::Undo => b", style=dashed]",
    }
}

/// The step and the path's number.
#[tactic(auto, unfolding(crate::specs::Pictures::path_label))]
fn push_label(out: &mut Page, side: Side, number: usize, target: Target)
    ensures { Adds out.old out.new (path_label side number target) }
{
    out.push(b"\"");
    out.push(side_word(side));
    out.push(b" ");
    out.push_number(number);
    push_refusal(out, target);
    out.push(b"\"")
}

/// The arrow of a path.
#[tactic(auto, unfolding(crate::specs::Pictures::path_line))]
fn push_path(out: &mut Page, ty: &TxType, point: &Point, side: Side, number: usize, path: &Path)
    ensures { Adds out.old out.new (path_line ty.now point.now side number path.now) }
{
    push_point(out, ty.name.as_slice(), point.name.as_slice());
    out.push(b" -> ");
    push_target(out, ty, point, path.target);
    out.push(b" [label=");
    push_label(out, side, number, path.target);
    out.push(side_style(side));
    out.push(b"\n")
}

/// The arrows of a step's paths.
fn push_paths(out: &mut Page, ty: &TxType, point: &Point, side: Side, paths: &[Path])
    ensures { Adds out.old out.new (path_lines_from ty.now point.now side 1 paths.now) }
{
    for (i, path) in paths.iter().enumerate() {
        push_path(out, ty, point, side, i + 1, path);
    }
}

/// The arrows of a point's steps.
#[tactic(auto, unfolding(crate::specs::Pictures::point_arrows))]
fn push_arrows_of(out: &mut Page, ty: &TxType, point: &Point)
    ensures { Adds out.old out.new (point_arrows ty.now point.now) }
{
    push_paths(out, ty, point, Side::Next, point.next.paths.as_slice());
    push_paths(out, ty, point, Side::Undo, point.undo.paths.as_slice())
}

/// The arrows of points' steps.
pub fn push_arrows(out: &mut Page, ty: &TxType, points: &[Point])
    ensures { Adds out.old out.new (flat_map (point_arrows ty.now) points.now) }
{
    for point in points {
        push_arrows_of(out, ty, point);
    }
}
