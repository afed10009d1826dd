//! Entries and hints.
ghost use Rattle.std.specs.Prelude.{◌≡◌, ◌∷◌, ◌++◌, [], map, option_map, option_copied, IfOk, OnOk};
ghost use Rattle.std.specs.List.{flat_map};
ghost use Rattle.acc_parse_names.specs.Scopes.{type_named};
ghost use Rattle.acc_parse_names.specs.Members.{members_of};
ghost use Rattle.acc_parse_limits.specs.Walks.{after};
ghost use Rattle.acc_parse_meaning.specs.Designs.{at_of, side_of, variables_at, pair_of, all_pairs, entry_of, hint_of};
ghost use Rattle.acc_parse_meaning.specs.Sizes.{entry_sizes, hint_sizes};
ghost use Rattle.acc_parse_clauses.specs.Views.{variables_in};

use acc_base::designs::{At, Entry, Hint, Side};
use acc_base::sequences::Seq;
use acc_parse_clauses::scopes::{VariableNames, fitted, number_of, variable};
use acc_parse_clauses::values::lin;
use acc_parse_limits::Walk;
use acc_parse_names::{NameIndex, Types};
use acc_parse_syntax::trees::{EntryTree, HintTree, Pairs, PointName, SideTree};
use std::alloc::{AllocError, Global};

/// A point, by the numbers of its type and of its own.
fn at<'a>(types: &Types<'a>, point: &'a PointName) -> At
    ensures { result ≡ at_of types.now.trees.now point.now }
{
    let ty = fitted(u64::from(types.place_of(&point.type_name).unwrap_or(0)));
    let point = match types.members_of(&point.type_name) {
        Some(members) => number_of(&members.points, &point.point),
        None => 0,
    };
    At { ty, point }
}

fn side(side: &SideTree) -> Side
    ensures { result ≡ side_of side.now }
{
    match side {
        SideTree::Next => Side::Next,
        SideTree::Undo => Side::Undo,
    }
}

/// The variables of the type of a point; `none` has no names.
fn variables_at<'s, 'a>(
    types: &'s Types<'a>,
    none: &'s NameIndex<'a>,
    point: &'a PointName,
) -> VariableNames<'s, 'a>
    requires { none.now ≡ [] }
    ensures { variables_in result ≡ variables_at types.now.trees.now point.now }
{
    match types.members_of(&point.type_name) {
        Some(members) => VariableNames {
            in_type: true,
            locals: &members.locals,
            own: none,
        },
        None => VariableNames {
            in_type: true,
            locals: none,
            own: none,
        },
    }
}

/// One or more pairs.
fn numbers_of<'a>(
    alloc: Global,
    held: &VariableNames<'_, 'a>,
    step: &VariableNames<'_, 'a>,
    trees: &'a Pairs,
) -> Result<Seq<(u32, u32)>, AllocError>
    ensures { IfOk result
        (λ ps. ps
        ≡ map (pair_of (variables_in held.now) (variables_in step.now)) (trees.now.first ∷ trees.now.others)) }
{
    let mut numbers = Seq::new(alloc);
    let first = &trees.first;
    numbers.push((variable(held, &first.held), variable(step, &first.step)))?;
    for other in trees.others.as_slice() {
        numbers.push((variable(held, &other.held), variable(step, &other.step)))?;
    }
    Ok(numbers)
}

/// The pairs of an entry.
fn pairs<'a>(
    alloc: Global,
    held: &VariableNames<'_, 'a>,
    step: &VariableNames<'_, 'a>,
    pairs: &'a Option<Pairs>,
) -> Result<Seq<(u32, u32)>, AllocError>
    ensures { IfOk result
        (λ ps. ps ≡ map (pair_of (variables_in held.now) (variables_in step.now)) (all_pairs pairs.now)) }
{
    match pairs {
        Some(trees) => numbers_of(alloc, held, step, trees),
        None => Ok(Seq::new(alloc)),
    }
}

/// The entry that is written; `none` has no names.
fn entry<'a>(
    alloc: Global,
    types: &Types<'a>,
    none: &NameIndex<'a>,
    tree: &'a EntryTree,
) -> Result<Entry, AllocError>
    requires { none.now ≡ [] }
    ensures { IfOk result (λ e. e ≡ entry_of types.now.trees.now tree.now) }
{
    let held = variables_at(types, none, &tree.held);
    let step = variables_at(types, none, &tree.by);
    Ok(Entry {
        held: at(types, &tree.held),
        step: at(types, &tree.by),
        side: side(&tree.side),
        pairs: pairs(alloc, &held, &step, &tree.pairs)?,
    })
}

/// The entries, each a statement.
pub fn entries<'a>(
    alloc: Global,
    walk: &mut Walk,
    types: &Types<'a>,
    trees: &'a [EntryTree],
) -> Result<Seq<Entry>, AllocError>
    ensures value { IfOk result (λ es. es ≡ map (entry_of types.now.trees.now) trees.now) }
    ensures walk { OnOk result (walk.new ≡ after walk.old (flat_map entry_sizes trees.now)) }
{
    let none = NameIndex::new(alloc);
    let mut entries = Seq::new(alloc);
    for tree in trees {
        entries.push(entry(alloc, types, &none, tree)?)?;
        walk.end();
    }
    Ok(entries)
}

/// The hint that is written, which ends its statement; `none` has no names.
fn hint<'a>(
    alloc: Global,
    walk: &mut Walk,
    types: &Types<'a>,
    none: &NameIndex<'a>,
    tree: &'a HintTree,
) -> Result<Hint, AllocError>
    requires { none.now ≡ [] }
    ensures value { IfOk result (λ h. h ≡ hint_of types.now.trees.now tree.now) }
    ensures walk { OnOk result (walk.new ≡ after walk.old (hint_sizes types.now.trees.now tree.now)) }
{
    let variables = variables_at(types, none, &tree.of);
    let value = lin(alloc, walk, &variables, &tree.value)?;
    walk.end();
    Ok(Hint {
        at: at(types, &tree.of),
        side: side(&tree.side),
        lin: value,
    })
}

/// The hints, each a statement.
pub fn hints<'a>(
    alloc: Global,
    walk: &mut Walk,
    types: &Types<'a>,
    trees: &'a [HintTree],
) -> Result<Seq<Hint>, AllocError>
    ensures value { IfOk result (λ hs. hs ≡ map (hint_of types.now.trees.now) trees.now) }
    ensures walk { OnOk result (walk.new ≡ after walk.old (flat_map (hint_sizes types.now.trees.now) trees.now)) }
{
    let none = NameIndex::new(alloc);
    let mut hints = Seq::new(alloc);
    for tree in trees {
        hints.push(hint(alloc, walk, types, &none, tree)?)?;
    }
    Ok(hints)
}
