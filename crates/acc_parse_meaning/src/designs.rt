//! The whole design.
ghost use Rattle.std.specs.Prelude.{◌≡◌, ◌<◌, ◌^◌, ◌∷◌, ◌++◌, [], map, IfOk, OnOk, IfNone, IfSome};
ghost use Rattle.std.specs.List.{flat_map};
ghost use Rattle.acc_parse_limits.specs.Walks.{after};
ghost use Rattle.acc_parse_limits.specs.Numbers.{is_before};
ghost use Rattle.acc_base.specs.Leasts.{IsLeast};
ghost use Rattle.acc_parse_statements.specs.Counts.{statements_of};
ghost use Rattle.acc_parse_clauses.specs.Forms.{clause_of};
ghost use Rattle.acc_parse_meaning.specs.Types.{type_of};
ghost use Rattle.acc_parse_meaning.specs.Designs.{table_of, outside, design_of};
ghost use Rattle.acc_parse_clauses.specs.Sizes.{clause_statement_sizes};
ghost use Rattle.acc_parse_meaning.specs.Sizes.{table_sizes, type_sizes, design_sizes, size_faults};

use crate::entries::{entries, hints};
use crate::types::type_of;
use acc_base::designs::{Design, TxType};
use acc_base::forms::Clause;
use acc_base::sequences::{Seq, copied};
use acc_base::tables::Table;
use acc_parse_clauses::clauses::clauses;
use acc_parse_clauses::scopes::{Surroundings, VariableNames, fitted};
use acc_parse_limits::{Limit, Walk};
use acc_parse_names::{DesignNames, NameIndex, Tables, Types};
use acc_parse_syntax::trees::{ClauseTree, DesignTree, TableTree};
use std::alloc::{AllocError, Global};

/// The design that a tree stands for, and the first statement that passes the limit of numbers by what is collected.
#[derive(Drop)]
pub struct Meaning {
    pub design: Design,
    /// The statement's number, counted from 0, and the limit.
    pub first_fault: Option<(u64, Limit)>,
}

fn table(tree: &TableTree) -> Result<Table, AllocError>
    ensures { IfOk result (λ t. t ≡ table_of tree.now) }
{
    Ok(Table {
        name: copied(&tree.name)?,
        width: fitted(tree.width),
        cols: copied(&tree.columns)?,
        own: tree.private,
    })
}

/// The tables, each a statement.
fn tables(alloc: Global, walk: &mut Walk, trees: &[TableTree]) -> Result<Seq<Table>, AllocError>
    ensures value { IfOk result (λ ts. ts ≡ map table_of trees.now) }
    ensures walk { OnOk result (walk.new ≡ after walk.old (flat_map table_sizes trees.now)) }
{
    let mut tables = Seq::new(alloc);
    for tree in trees {
        tables.push(table(tree)?)?;
        walk.end();
    }
    Ok(tables)
}

/// The clauses that hold always, each a statement.
fn always<'a>(
    alloc: Global,
    walk: &mut Walk,
    tables: &Tables<'a>,
    trees: &'a [ClauseTree],
) -> Result<Seq<Clause>, AllocError>
    ensures value { IfOk result (λ cs. cs ≡ map (clause_of (outside tables.now.trees.now)) trees.now) }
    ensures walk { OnOk result (walk.new ≡ after walk.old (flat_map (clause_statement_sizes (outside tables.now.trees.now)) trees.now)) }
{
    let none = NameIndex::new(alloc);
    let variables = VariableNames {
        in_type: false,
        locals: &none,
        own: &none,
    };
    let scope = Surroundings {
        tables,
        variables: &variables,
    };
    clauses(alloc, walk, &scope, trees)
}

/// The types.
fn types<'a>(
    alloc: Global,
    walk: &mut Walk,
    tables: &Tables<'a>,
    types: &Types<'a>,
) -> Result<Seq<TxType>, AllocError>
    ensures value { IfOk result (λ ts. ts ≡ map (type_of tables.now.trees.now) types.now.trees.now) }
    ensures walk { OnOk result (walk.new ≡ after walk.old (flat_map (type_sizes tables.now.trees.now) types.now.trees.now)) }
{
    let mut made = Seq::new(alloc);
    for (i, tree) in types.trees.iter().enumerate() {
        made.push(type_of(alloc, walk, tables, &types.members[i], tree)?)?;
    }
    Ok(made)
}

/// The design that a tree stands for.
fn design<'a>(
    alloc: Global,
    walk: &mut Walk,
    names: &DesignNames<'a>,
    tree: &'a DesignTree,
) -> Result<Design, AllocError>
    requires tables { names.now.tables.trees.now ≡ tree.now.tables }
    requires types { names.now.types.trees.now ≡ tree.now.types }
    ensures value { IfOk result (λ d. d ≡ design_of tree.now) }
    ensures walk { OnOk result (walk.new ≡ after walk.old (design_sizes tree.now)) }
{
    let made = tables(alloc, walk, tree.tables.as_slice())?;
    let always = always(alloc, walk, &names.tables, tree.always.as_slice())?;
    let types = types(alloc, walk, &names.tables, &names.types)?;
    let entries = entries(alloc, walk, &names.types, tree.entries.as_slice())?;
    let hints = hints(alloc, walk, &names.types, tree.hints.as_slice())?;
    Ok(Design {
        tables: made,
        always,
        types,
        entries,
        hints,
    })
}

/// The design that a tree stands for, with 0 for a name that isn't defined, for a number that is too large, and for one that
/// doesn't fit 32 bits where the design has so many; and the first statement with a collected number that is too large.
/// The cost is that of going over the tree, with a look-up in an ordered map for each name and each term.
pub fn meaning_of<'a>(
    alloc: Global,
    names: &DesignNames<'a>,
    tree: &'a DesignTree,
) -> Result<Meaning, AllocError>
    requires tables { names.now.tables.trees.now ≡ tree.now.tables }
    requires types { names.now.types.trees.now ≡ tree.now.types }
    ensures design { IfOk result (λ m. m.design ≡ design_of tree.now) }
    ensures none { statements_of tree.now < 2 ^ 64
        → IfOk result (λ m. IfNone m.first_fault (size_faults tree.now ≡ [])) }
    ensures first { statements_of tree.now < 2 ^ 64
        → IfOk result (λ m. IfSome m.first_fault (IsLeast is_before (size_faults tree.now))) }
    ensures within { statements_of tree.now < 2 ^ 64
        → IfOk result (λ m. IfSome m.first_fault (λ f. f.0 < statements_of tree.now)) }
{
    let mut walk = Walk::new(0, 0);
    let design = design(alloc, &mut walk, names, tree)?;
    Ok(Meaning {
        design,
        first_fault: walk.first,
    })
}
