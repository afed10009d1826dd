//! Types and their points. Each call writes to `out`.
ghost use Rattle.std.specs.Prelude.{◌≡◌, ◌++◌, map, take, drop, codes};
ghost use Rattle.acc_page.specs.Written.{Adds};
ghost use Rattle.std.specs.List.{flat_map};
ghost use Rattle.std.specs.Fmt.{decimal};
ghost use Rattle.acc_base.specs.Lines.{line};
ghost use Rattle.acc_print.specs.Lists.{spaced};
ghost use Rattle.acc_print.specs.Names.{name_at};
ghost use Rattle.acc_print.specs.Types.{is_zero, variant_lines, sides_lines, point_lines, names_lines, head_lines, type_lines};

use crate::clauses::{push_clauses, push_names};
use crate::scopes::{Scope, Surroundings, name_at};
use crate::steps::push_step;
use crate::values::push_lin;
use acc_base::designs::{Point, TxType};
use acc_base::forms::Lin;
use acc_base::sequences::Text;
use acc_base::tables::Table;
use acc_page::Page;

fn is_zero(lin: &Lin) -> bool
    ensures { result ≡ is_zero lin.now.coeffs lin.now.constant }
{
    lin.coeffs.is_empty() && lin.constant == 0
}

fn push_variant(out: &mut Page, scope: &Scope, variant: &Lin)
    ensures { Adds out.old out.new (variant_lines scope.now.names variant.now) }
{
    if is_zero(variant) {
        return;
    }
    out.push(b"variant ");
    push_lin(out, scope, variant);
    out.push(b"\n")
}

/// A word and a name.
fn push_named(out: &mut Page, word: &[u8], name: &Text)
    ensures { Adds out.old out.new (word.now ++ name.now) }
{
    out.push(word);
    out.push(name.as_slice())
}

fn push_sides(out: &mut Page, scope: &Scope, points: &[Point], point: &Point)
    ensures { Adds out.old out.new (sides_lines scope.now points.now point.now) }
{
    out.push(b"next\n");
    push_step(out, scope, points, &point.next);
    out.push(b"undo\n");
    push_step(out, scope, points, &point.undo)
}

fn push_point(out: &mut Page, surroundings: &Surroundings, points: &[Point], point: &Point)
    ensures { Adds out.old out.new (point_lines surroundings.now points.now point.now) }
{
    let scope = surroundings.plain();
    push_named(out, b"point ", &point.name);
    out.push(b"\n");
    push_variant(out, &scope, &point.variant);
    push_clauses(out, surroundings, b"holds ", point.clauses.as_slice());
    push_sides(out, &scope, points, point)
}

fn push_points(out: &mut Page, surroundings: &Surroundings, points: &[Point])
    ensures { Adds out.old out.new (flat_map (point_lines surroundings.now points.now) points.now) }
{
    for point in points {
        push_point(out, surroundings, points, point);
    }
}

/// The statement of a word and names, where there are some.
fn push_local(out: &mut Page, locals: &[Text])
    ensures { Adds out.old out.new (names_lines (codes "local") locals.now) }
{
    if locals.is_empty() {
        return;
    }
    out.push(b"local");
    push_names(out, locals);
    out.push(b"\n")
}

/// The names of these places, each behind a space.
fn push_numbered(out: &mut Page, names: &[Text], places: &[u32])
    ensures { Adds out.old out.new (flat_map spaced (map (name_at names.now) places.now)) }
{
    for place in places {
        out.push(b" ");
        out.push(name_at(names, *place as usize));
    }
}

fn push_returns(out: &mut Page, names: &[Text], places: &[u32])
    ensures { Adds out.old out.new (names_lines (codes "returns") (map (name_at names.now) places.now)) }
{
    if places.is_empty() {
        return;
    }
    out.push(b"returns");
    push_numbered(out, names, places);
    out.push(b"\n")
}

/// The locals that are parameters, and the others.
fn parameters(ty: &TxType) -> (&[Text], &[Text])
    ensures parameters { result.0.now ≡ take ty.now.params ty.now.locals }
    ensures others { result.1.now ≡ drop ty.now.params ty.now.locals }
{
    let locals = ty.locals.as_slice();
    locals.split_at((ty.params as usize).min(locals.len()))
}

fn push_limit(out: &mut Page, limit: u32)
    ensures { Adds out.old out.new (line (codes "limit " ++ decimal limit)) }
{
    out.push(b"limit ");
    out.push_number(limit);
    out.push(b"\n")
}

fn push_head(out: &mut Page, ty: &TxType)
    ensures { Adds out.old out.new (head_lines ty.now) }
{
    let (parameters, others) = parameters(ty);
    push_named(out, b"type ", &ty.name);
    push_names(out, parameters);
    out.push(b"\n");
    push_limit(out, ty.limit);
    push_returns(out, ty.locals.as_slice(), ty.returns.as_slice());
    push_local(out, others)
}

/// A type, where it is known which tables its design has.
pub fn push_type(out: &mut Page, tables: &[Table], ty: &TxType)
    ensures { Adds out.old out.new (type_lines tables.now ty.now) }
{
    let surroundings = Surroundings::within(tables, ty);
    push_head(out, ty);
    push_clauses(out, &surroundings, b"ensures ", ty.posts.as_slice());
    push_clauses(out, &surroundings, b"repairs ", ty.repairs.as_slice());
    push_points(out, &surroundings, ty.points.as_slice())
}
