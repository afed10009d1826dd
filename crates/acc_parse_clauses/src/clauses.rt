//! Clauses.
ghost use Rattle.std.specs.Prelude.{◌≡◌, ◌∷◌, ◌++◌, [], map, IfOk, OnOk};
ghost use Rattle.std.specs.List.{flat_map};
ghost use Rattle.acc_parse_names.specs.Names.{listed, listed_or_none};
ghost use Rattle.acc_parse_limits.specs.Walks.{after};
ghost use Rattle.acc_parse_clauses.specs.Forms.{rel_of, all_form_rels, clause_of};
ghost use Rattle.acc_parse_clauses.specs.Sizes.{rel_sizes, clause_statement_sizes};
ghost use Rattle.acc_parse_clauses.specs.Views.{scope_in};

use crate::forms::rel;
use crate::scopes::{Surroundings, VariableNames};
use acc_base::forms::{Clause, Rel};
use acc_base::sequences::{Seq, Text, copied};
use acc_parse_limits::Walk;
use acc_parse_names::NameIndex;
use acc_parse_syntax::trees::{ClauseTree, FormRels, Names};
use std::alloc::{AllocError, Global};

/// Puts one or more names behind others.
pub fn push_names(all: &mut Seq<Text>, names: &Names) -> Result<(), AllocError>
    ensures { OnOk result (all.new ≡ all.old ++ listed names.now) }
{
    all.push(copied(&names.first)?)?;
    for other in names.others.as_slice() {
        all.push(copied(other)?)?;
    }
    Ok(())
}

/// Puts names, which may be left out, behind others.
pub fn push_listed(all: &mut Seq<Text>, names: &Option<Names>) -> Result<(), AllocError>
    ensures { OnOk result (all.new ≡ all.old ++ listed_or_none names.now) }
{
    match names {
        Some(names) => push_names(all, names),
        None => Ok(()),
    }
}

/// One or more relations.
fn rels<'a>(
    alloc: Global,
    walk: &mut Walk,
    scope: &Surroundings<'_, 'a>,
    trees: &'a FormRels,
) -> Result<Seq<Rel>, AllocError>
    ensures value { IfOk result (λ rs. rs ≡ map (rel_of (scope_in scope.now)) (trees.now.first ∷ trees.now.others)) }
    ensures walk { OnOk result
        (walk.new
        ≡ after walk.old (flat_map (rel_sizes (scope_in scope.now)) (trees.now.first ∷ trees.now.others))) }
{
    let mut rels = Seq::new(alloc);
    rels.push(rel(alloc, walk, scope, &trees.first)?)?;
    for other in trees.others.as_slice() {
        rels.push(rel(alloc, walk, scope, other)?)?;
    }
    Ok(rels)
}

/// The guards of a clause.
fn guards<'a>(
    alloc: Global,
    walk: &mut Walk,
    scope: &Surroundings<'_, 'a>,
    guards: &'a Option<FormRels>,
) -> Result<Seq<Rel>, AllocError>
    ensures value { IfOk result (λ rs. rs ≡ map (rel_of (scope_in scope.now)) (all_form_rels guards.now)) }
    ensures walk { OnOk result
        (walk.new ≡ after walk.old (flat_map (rel_sizes (scope_in scope.now)) (all_form_rels guards.now))) }
{
    match guards {
        Some(trees) => rels(alloc, walk, scope, trees),
        None => Ok(Seq::new(alloc)),
    }
}

/// The clause of a statement, which ends with it.
fn clause<'a>(
    alloc: Global,
    walk: &mut Walk,
    scope: &Surroundings<'_, 'a>,
    tree: &'a ClauseTree,
) -> Result<Clause, AllocError>
    ensures value { IfOk result (λ c. c ≡ clause_of (scope_in scope.now) tree.now) }
    ensures walk { OnOk result (walk.new ≡ after walk.old (clause_statement_sizes (scope_in scope.now) tree.now)) }
{
    let mut own = NameIndex::new(alloc);
    own.add_listed(&tree.variables)?;
    let variables = VariableNames {
        in_type: scope.variables.in_type,
        locals: scope.variables.locals,
        own: &own,
    };
    let inside = Surroundings {
        tables: scope.tables,
        variables: &variables,
    };
    let mut vars = Seq::new(alloc);
    push_listed(&mut vars, &tree.variables)?;
    let guards = guards(alloc, walk, &inside, &tree.guards)?;
    let rel = rel(alloc, walk, &inside, &tree.relation)?;
    walk.end();
    Ok(Clause { vars, guards, rel })
}

/// Clauses, each a statement.
pub fn clauses<'a>(
    alloc: Global,
    walk: &mut Walk,
    scope: &Surroundings<'_, 'a>,
    trees: &'a [ClauseTree],
) -> Result<Seq<Clause>, AllocError>
    ensures value { IfOk result (λ cs. cs ≡ map (clause_of (scope_in scope.now)) trees.now) }
    ensures walk { OnOk result (walk.new ≡ after walk.old (flat_map (clause_statement_sizes (scope_in scope.now)) trees.now)) }
{
    let mut clauses = Seq::new(alloc);
    for tree in trees {
        clauses.push(clause(alloc, walk, scope, tree)?)?;
    }
    Ok(clauses)
}
