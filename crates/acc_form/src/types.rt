//! The statements of points and types.
ghost use Rattle.std.specs.Prelude.{◌≡◌, ◌≤◌, length, take, drop};
ghost use Rattle.acc_form.specs.Marks.{numbered};
ghost use Rattle.acc_form.specs.Statements.{is_zero, variant_marks, point_marks, head_marks, returns_marks, locals_marks, type_marks};
ghost use Rattle.acc_form.specs.Walks.{after};

use crate::clauses::meet_clauses;
use crate::names::{are_distinct, are_new, names_point, names_type};
use crate::sizes::{all_short, is_short, lin_small, returns_small};
use crate::steps::{Around, meet_step};
use crate::walks::Walk;
use acc_base::bounds::{LARGEST_LIMIT, MOST_CLAUSES, MOST_LOCALS, MOST_POINTS, MOST_TYPES};
use acc_base::designs::{Point, Side, TxType};
use acc_base::forms::Lin;
use acc_base::rules::FormRule;
use acc_base::sequences::Text;
use acc_base::tables::Table;

fn is_zero(lin: &Lin) -> bool
    ensures { result ≡ is_zero lin.now }
{
    lin.coeffs.as_slice().is_empty() && lin.constant == 0
}

/// The variant, which is printed where it isn't 0.
fn meet_variant(walk: &mut Walk, variant: &Lin)
    ensures { walk.new ≡ after walk.old (variant_marks variant.now) }
{
    if !is_zero(variant) {
        walk.ask(FormRule::Limits, lin_small(variant));
        walk.end();
    }
}

/// A point; the undo of the first one is bare.
fn meet_point(walk: &mut Walk, tables: &[Table], ty: &TxType, i: usize, point: &Point)
    requires { i ≤ length ty.now.points }
    ensures { walk.new ≡ after walk.old (point_marks tables.now ty.now i point.now) }
{
    let earlier = &ty.points.as_slice()[..i];
    walk.ask(FormRule::Limits, i != MOST_POINTS && is_short(&point.name));
    walk.ask(FormRule::Names, !names_point(earlier, &point.name));
    walk.end();
    meet_variant(walk, &point.variant);
    meet_clauses(
        walk,
        tables,
        ty.locals.as_slice(),
        MOST_CLAUSES,
        point.clauses.as_slice(),
    );
    let forward = Around {
        tables,
        ty,
        side: Side::Next,
        is_bare: false,
    };
    meet_step(walk, &forward, &point.next);
    let back = Around {
        tables,
        ty,
        side: Side::Undo,
        is_bare: i == 0,
    };
    meet_step(walk, &back, &point.undo);
}

/// At most 32 points.
fn meet_points(walk: &mut Walk, tables: &[Table], ty: &TxType)
    ensures { walk.new ≡ after walk.old (numbered (point_marks tables.now ty.now) ty.now.points) }
{
    let points = ty.points.as_slice();
    for (i, point) in points.iter().enumerate() {
        meet_point(walk, tables, ty, i, point);
    }
}

/// The names of a type's parameters.
fn params_of(ty: &TxType) -> &[Text]
    ensures { result.now ≡ take ty.now.params ty.now.locals }
{
    let locals = ty.locals.as_slice();
    let count = locals.len().min(ty.params as usize);
    &locals[..count]
}

/// The names of the locals that are no parameters.
fn others_of(ty: &TxType) -> &[Text]
    ensures { result.now ≡ drop ty.now.params ty.now.locals }
{
    let locals = ty.locals.as_slice();
    let count = locals.len().min(ty.params as usize);
    &locals[count..]
}

/// `type` with its name and parameters, and `limit`.
fn meet_head(walk: &mut Walk, types: &[TxType], i: usize, ty: &TxType)
    requires { i ≤ length types.now }
    ensures { walk.new ≡ after walk.old (head_marks types.now i ty.now) }
{
    let params = params_of(ty);
    walk.ask(
        FormRule::Limits,
        i != MOST_TYPES
            && is_short(&ty.name)
            && ty.params as usize <= MOST_LOCALS
            && all_short(params),
    );
    walk.ask(
        FormRule::Names,
        !names_type(&types[..i], &ty.name) && are_distinct(params),
    );
    walk.end();
    walk.ask(
        FormRule::Numbers,
        1 <= ty.limit && ty.limit <= LARGEST_LIMIT,
    );
    walk.end();
}

/// `returns`, where something is returned.
fn meet_returns(walk: &mut Walk, ty: &TxType)
    ensures { walk.new ≡ after walk.old (returns_marks ty.now) }
{
    let returns = ty.returns.as_slice();
    if !returns.is_empty() {
        walk.ask(
            FormRule::Limits,
            returns_small(ty.locals.as_slice(), returns),
        );
        walk.end();
    }
}

/// `local`, where there are locals that are no parameters: at most 48 with them.
fn meet_locals(walk: &mut Walk, ty: &TxType)
    ensures { walk.new ≡ after walk.old (locals_marks ty.now) }
{
    if ty.locals.len() > ty.params as usize {
        let others = others_of(ty);
        walk.ask(
            FormRule::Limits,
            ty.locals.len() <= MOST_LOCALS && all_short(others),
        );
        walk.ask(FormRule::Names, are_new(params_of(ty), others));
        walk.end();
    }
}

/// A type, one of at most 64.
pub fn meet_type(walk: &mut Walk, tables: &[Table], types: &[TxType], i: usize, ty: &TxType)
    requires { i ≤ length types.now }
    ensures { walk.new ≡ after walk.old (type_marks tables.now types.now i ty.now) }
{
    let locals = ty.locals.as_slice();
    meet_head(walk, types, i, ty);
    meet_returns(walk, ty);
    meet_locals(walk, ty);
    meet_clauses(walk, tables, locals, MOST_CLAUSES, ty.posts.as_slice());
    meet_clauses(walk, tables, locals, MOST_CLAUSES, ty.repairs.as_slice());
    meet_points(walk, tables, ty);
}
