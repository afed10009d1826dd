//! The first statement of a design with a fault of names.
ghost use Rattle.std.specs.Prelude.{◌≡◌, ◌<◌, ◌++◌, [], map, length, position, IfOk, IfSome, OnOk};
ghost use Rattle.acc_parse_statements.specs.Counts.{statements_of};
ghost use Rattle.acc_parse_names.specs.Least.{IsLeastOf};
ghost use Rattle.acc_parse_names.specs.Faults.{clause_fault, outside, statement_faults, name_faults, first_fault_of};

use crate::clauses::clauses_faults;
use crate::entries::{entries_faults, hints_faults};
use crate::members::Types;
use crate::names::NameIndex;
use crate::scopes::{Definitions, Variables};
use crate::tables::Tables;
use crate::types::types_faults;
use acc_parse_syntax::trees::{ClauseTree, DesignTree};
use std::alloc::{AllocError, Global};

/// Puts behind `faults` whether each `always` statement has a fault.
fn always_faults<'a>(
    alloc: Global,
    tables: &Tables<'a>,
    clauses: &'a [ClauseTree],
    faults: &mut Vec<bool>,
) -> Result<(), AllocError>
    ensures { OnOk result
        (faults.new.items ≡ faults.old.items ++ map (clause_fault (outside tables.now.trees.now)) clauses.now) }
{
    let none = NameIndex::new(alloc);
    let variables = Variables {
        locals: &none,
        own: &none,
    };
    let definitions = Definitions {
        tables,
        variables: &variables,
    };
    clauses_faults(alloc, &definitions, clauses, faults)
}

/// What the names of a design's tables and types are, and the first statement with a fault of names.
#[derive(Drop)]
pub struct DesignNames<'a> {
    pub tables: Tables<'a>,
    pub types: Types<'a>,
    /// The number of the first statement that defines a name a second time, or uses one that isn't defined, if there is one. Statements
    /// are counted from 0, in the order of the text.
    pub first_fault: Option<u64>,
}

/// The tables and types of a design by name; behind `faults`, for each statement, whether it has a fault of names.
fn statement_faults<'a>(
    alloc: Global,
    tree: &'a DesignTree,
    faults: &mut Vec<bool>,
) -> Result<(Tables<'a>, Types<'a>), AllocError>
    ensures tables { IfOk result (λ n. n.0.trees.now ≡ tree.now.tables) }
    ensures types { IfOk result (λ n. n.1.trees.now ≡ tree.now.types) }
    ensures faults { OnOk result (faults.new.items ≡ faults.old.items ++ statement_faults tree.now) }
{
    let tables = Tables::new(alloc, tree.tables.as_slice(), faults)?;
    always_faults(alloc, &tables, tree.always.as_slice(), faults)?;
    let types = types_faults(alloc, &tables, tree.types.as_slice(), faults)?;
    entries_faults(alloc, &types, tree.entries.as_slice(), faults)?;
    hints_faults(alloc, &types, tree.hints.as_slice(), faults)?;
    Ok((tables, types))
}

fn first_true(faults: &[bool]) -> Option<usize>
    ensures value { result ≡ position (λ fault. fault) faults.now }
    ensures below { IfSome result (λ n. n < length faults.now) }
{
    faults.iter().position(|fault| *fault)
}

/// The tables and types of a design by name, and the first statement with a fault of names.
pub fn names_of<'a>(alloc: Global, tree: &'a DesignTree) -> Result<DesignNames<'a>, AllocError>
    ensures tables { IfOk result (λ n. n.tables.trees.now ≡ tree.now.tables) }
    ensures types { IfOk result (λ n. n.types.trees.now ≡ tree.now.types) }
    ensures first { IfOk result (λ n. n.first_fault ≡ first_fault_of tree.now) }
    ensures least { IfOk result (λ n. IsLeastOf n.first_fault (name_faults tree.now)) }
    ensures within { IfOk result (λ n. IfSome n.first_fault (λ k. k < statements_of tree.now)) }
{
    let mut faults = Vec::new(alloc);
    let (tables, types) = statement_faults(alloc, tree, &mut faults)?;
    Ok(DesignNames {
        tables,
        types,
        first_fault: first_true(&faults).map(|place| place as u64),
    })
}
