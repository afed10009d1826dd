//! Points and types.
ghost use Rattle.std.specs.Prelude.{◌≡◌, ◌∷◌, ◌++◌, [], map, IfOk, OnOk};
ghost use Rattle.std.specs.List.{flat_map};
ghost use Rattle.acc_parse_names.specs.Names.{listed, listed_or_none};
ghost use Rattle.acc_parse_names.specs.Scopes.{locals_of, points_in, point_names};
ghost use Rattle.acc_parse_names.specs.Members.{members_of};
ghost use Rattle.acc_parse_limits.specs.Walks.{after};
ghost use Rattle.acc_parse_clauses.specs.Scopes.{number_of};
ghost use Rattle.acc_parse_clauses.specs.Forms.{clause_of};
ghost use Rattle.acc_parse_meaning.specs.Types.{variant_of, point_of, type_scope, returned_of, type_of};
ghost use Rattle.acc_parse_meaning.specs.Bodies.{body_sizes};
ghost use Rattle.acc_parse_meaning.specs.Sizes.{variant_sizes, point_sizes, names_sizes, type_sizes};
ghost use Rattle.acc_parse_clauses.specs.Views.{variables_in, scope_in};

use crate::steps::step;
use acc_base::designs::{Point, TxType};
use acc_base::forms::{Clause, Lin};
use acc_base::sequences::{Seq, Text, copied};
use acc_parse_clauses::clauses::{clauses, push_listed};
use acc_parse_clauses::scopes::{Surroundings, VariableNames, fitted, number_of};
use acc_parse_clauses::values::lin;
use acc_parse_limits::Walk;
use acc_parse_names::{Members, NameIndex, Tables};
use acc_parse_syntax::trees::{Names, PointTree, Sum, TypeTree};
use std::alloc::{AllocError, Global};

/// The variant of a point: 0 where it is left out.
fn variant<'a>(
    alloc: Global,
    walk: &mut Walk,
    variables: &VariableNames<'_, 'a>,
    tree: &'a Option<Sum>,
) -> Result<Lin, AllocError>
    ensures value { IfOk result (λ l. l ≡ variant_of (variables_in variables.now) tree.now) }
    ensures walk { OnOk result (walk.new ≡ after walk.old (variant_sizes (variables_in variables.now) tree.now)) }
{
    match tree {
        Some(sum) => {
            let value = lin(alloc, walk, variables, sum)?;
            walk.end();
            Ok(value)
        }
        None => Ok(Lin {
            coeffs: Seq::new(alloc),
            constant: 0,
        }),
    }
}

/// The point that is written.
fn point<'a>(
    alloc: Global,
    walk: &mut Walk,
    scope: &Surroundings<'_, 'a>,
    points: &NameIndex<'a>,
    tree: &'a PointTree,
) -> Result<Point, AllocError>
    ensures value { IfOk result (λ p. p ≡ point_of (scope_in scope.now) points.now tree.now) }
    ensures walk { OnOk result (walk.new ≡ after walk.old (point_sizes (scope_in scope.now) tree.now)) }
{
    walk.end();
    let variant = variant(alloc, walk, scope.variables, &tree.variant)?;
    let clauses = clauses(alloc, walk, scope, tree.holds.as_slice())?;
    let next = step(alloc, walk, scope, points, tree.next.get())?;
    let undo = step(alloc, walk, scope, points, tree.undo.get())?;
    Ok(Point {
        name: copied(&tree.name)?,
        clauses,
        next,
        undo,
        variant,
    })
}

/// The points of a type.
fn points<'a>(
    alloc: Global,
    walk: &mut Walk,
    scope: &Surroundings<'_, 'a>,
    names: &NameIndex<'a>,
    tree: &'a TypeTree,
) -> Result<Seq<Point>, AllocError>
    ensures value { IfOk result (λ ps. ps ≡ map (point_of (scope_in scope.now) names.now) (points_in tree.now)) }
    ensures walk { OnOk result (walk.new ≡ after walk.old (flat_map (point_sizes (scope_in scope.now)) (points_in tree.now))) }
{
    let mut points = Seq::new(alloc);
    points.push(point(alloc, walk, scope, names, &tree.first)?)?;
    for other in tree.others.as_slice() {
        points.push(point(alloc, walk, scope, names, other)?)?;
    }
    Ok(points)
}

/// The locals of a type, its parameters among them.
fn locals(tree: &TypeTree) -> Result<Seq<Text>, AllocError>
    ensures { IfOk result (λ xs. xs ≡ locals_of tree.now) }
{
    let mut locals: Seq<Text> = copied(&tree.params)?;
    push_listed(&mut locals, &tree.locals)?;
    Ok(locals)
}

/// The numbers of one or more names.
fn numbers_of<'a>(
    alloc: Global,
    locals: &NameIndex<'a>,
    names: &'a Names,
) -> Result<Seq<u32>, AllocError>
    ensures { IfOk result (λ ns. ns ≡ map (λ x. number_of x locals.now) (listed names.now)) }
{
    let mut numbers = Seq::new(alloc);
    numbers.push(number_of(locals, &names.first))?;
    for other in names.others.as_slice() {
        numbers.push(number_of(locals, other))?;
    }
    Ok(numbers)
}

/// The locals that are returned, by number.
fn returned<'a>(
    alloc: Global,
    locals: &NameIndex<'a>,
    names: &'a Option<Names>,
) -> Result<Seq<u32>, AllocError>
    ensures { IfOk result (λ ns. ns ≡ map (λ x. number_of x locals.now) (listed_or_none names.now)) }
{
    match names {
        Some(names) => numbers_of(alloc, locals, names),
        None => Ok(Seq::new(alloc)),
    }
}

/// A statement of names ends, if it is there.
fn end_names(walk: &mut Walk, names: &Option<Names>)
    ensures { walk.new ≡ after walk.old (names_sizes names.now) }
{
    if names.is_some() {
        walk.end();
    }
}

/// What a commit of a type ensures and a compensation repairs, and its points.
#[derive(Drop)]
struct TypeBody {
    posts: Seq<Clause>,
    repairs: Seq<Clause>,
    points: Seq<Point>,
}

/// What stands behind the head of a type; its names are those of `members`.
fn type_body<'a>(
    alloc: Global,
    walk: &mut Walk,
    tables: &Tables<'a>,
    members: &Members<'a>,
    tree: &'a TypeTree,
) -> Result<TypeBody, AllocError>
    requires locals { members.now.locals ≡ locals_of tree.now }
    requires points { members.now.points ≡ point_names tree.now }
    ensures posts { IfOk result
        (λ b. b.posts ≡ map (clause_of (type_scope tables.now.trees.now tree.now)) tree.now.ensured) }
    ensures repairs { IfOk result
        (λ b. b.repairs ≡ map (clause_of (type_scope tables.now.trees.now tree.now)) tree.now.repaired) }
    ensures points { IfOk result
        (λ b. b.points
        ≡ map (point_of (type_scope tables.now.trees.now tree.now) (point_names tree.now)) (points_in tree.now)) }
    ensures walk { OnOk result (walk.new ≡ after walk.old (body_sizes (type_scope tables.now.trees.now tree.now) tree.now)) }
{
    let own = NameIndex::new(alloc);
    let variables = VariableNames {
        in_type: true,
        locals: &members.locals,
        own: &own,
    };
    let scope = Surroundings {
        tables,
        variables: &variables,
    };
    let posts = clauses(alloc, walk, &scope, tree.ensured.as_slice())?;
    let repairs = clauses(alloc, walk, &scope, tree.repaired.as_slice())?;
    let points = points(alloc, walk, &scope, &members.points, tree)?;
    Ok(TypeBody {
        posts,
        repairs,
        points,
    })
}

/// The type that is written; its names are those of `members`.
pub fn type_of<'a>(
    alloc: Global,
    walk: &mut Walk,
    tables: &Tables<'a>,
    members: &Members<'a>,
    tree: &'a TypeTree,
) -> Result<TxType, AllocError>
    requires locals { members.now.locals ≡ locals_of tree.now }
    requires points { members.now.points ≡ point_names tree.now }
    ensures value { IfOk result (λ t. t ≡ type_of tables.now.trees.now tree.now) }
    ensures walk { OnOk result (walk.new ≡ after walk.old (type_sizes tables.now.trees.now tree.now)) }
{
    walk.end();
    walk.end();
    end_names(walk, &tree.returns);
    end_names(walk, &tree.locals);
    let body = type_body(alloc, walk, tables, members, tree)?;
    Ok(TxType {
        name: copied(&tree.name)?,
        params: fitted(tree.params.len() as u64),
        locals: locals(tree)?,
        points: body.points,
        posts: body.posts,
        repairs: body.repairs,
        returns: returned(alloc, &members.locals, &tree.returns)?,
        limit: fitted(tree.limit),
    })
}
