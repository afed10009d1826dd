//! The statements of a whole design: its first fault, and the lowest limit on some of its statements.
ghost use Rattle.std.specs.Prelude.{◌≡◌, ◌^◌, ◌<◌, [], IfSome, IfNone};
ghost use Rattle.acc_parse_statements.specs.Counts.{statements_of};
ghost use Rattle.acc_parse_limits.specs.Numbers.{is_lower, is_before};
ghost use Rattle.acc_parse_limits.specs.Marks.{limited};
ghost use Rattle.acc_parse_limits.specs.Statements.{table_marks, clause_statement_marks, type_marks, entry_marks, hint_marks, design_marks};
ghost use Rattle.acc_parse_limits.specs.Faults.{limit_faults, limits_on};
ghost use Rattle.acc_base.specs.Leasts.{IsLeast};
ghost use Rattle.acc_parse_limits.specs.Walks.{after};

use crate::types::{meet_clause_statement, meet_entry, meet_hint, meet_table, meet_type};
use crate::walks::Walk;
use acc_base::bounds::{MOST_ALWAYS, MOST_ENTRIES, MOST_HINTS, MOST_TABLES, MOST_TYPES};
use acc_base::limits::Limit;
use acc_parse_syntax::trees::{ClauseTree, DesignTree, EntryTree, HintTree, TableTree, TypeTree};

/// At most 64 tables.
fn meet_tables(walk: &mut Walk, tables: &[TableTree])
    ensures { walk.new ≡ after walk.old (limited Limit.Tables MOST_TABLES table_marks tables.now) }
{
    for (i, table) in tables.iter().enumerate() {
        walk.pass_if(Limit::Tables, i == MOST_TABLES);
        meet_table(walk, table);
    }
}

/// At most 128 clauses that hold always.
fn meet_always(walk: &mut Walk, clauses: &[ClauseTree])
    ensures { walk.new ≡ after walk.old (limited Limit.AlwaysClauses MOST_ALWAYS clause_statement_marks clauses.now) }
{
    for (i, clause) in clauses.iter().enumerate() {
        walk.pass_if(Limit::AlwaysClauses, i == MOST_ALWAYS);
        meet_clause_statement(walk, clause);
    }
}

/// At most 64 types.
fn meet_types(walk: &mut Walk, types: &[TypeTree])
    ensures { walk.new ≡ after walk.old (limited Limit.Types MOST_TYPES type_marks types.now) }
{
    for (i, t) in types.iter().enumerate() {
        walk.pass_if(Limit::Types, i == MOST_TYPES);
        meet_type(walk, t);
    }
}

/// At most 1,024 entries.
fn meet_entries(walk: &mut Walk, entries: &[EntryTree])
    ensures { walk.new ≡ after walk.old (limited Limit.EntriesAndHints MOST_ENTRIES entry_marks entries.now) }
{
    for (i, entry) in entries.iter().enumerate() {
        walk.pass_if(Limit::EntriesAndHints, i == MOST_ENTRIES);
        meet_entry(walk, entry);
    }
}

/// At most 1,024 hints.
fn meet_hints(walk: &mut Walk, hints: &[HintTree])
    ensures { walk.new ≡ after walk.old (limited Limit.EntriesAndHints MOST_HINTS hint_marks hints.now) }
{
    for (i, hint) in hints.iter().enumerate() {
        walk.pass_if(Limit::EntriesAndHints, i == MOST_HINTS);
        meet_hint(walk, hint);
    }
}

fn meet_design(walk: &mut Walk, tree: &DesignTree)
    ensures { walk.new ≡ after walk.old (design_marks tree.now) }
{
    meet_tables(walk, tree.tables.as_slice());
    meet_always(walk, tree.always.as_slice());
    meet_types(walk, tree.types.as_slice());
    meet_entries(walk, tree.entries.as_slice());
    meet_hints(walk, tree.hints.as_slice());
}

/// The first statement that passes a limit, by its number from 0, and the lowest limit that it passes.
pub fn first_fault(tree: &DesignTree) -> Option<(u64, Limit)>
    ensures none { statements_of tree.now < 2 ^ 64 → IfNone result (limit_faults tree.now ≡ []) }
    ensures first { statements_of tree.now < 2 ^ 64
        → IfSome result (IsLeast is_before (limit_faults tree.now)) }
    ensures within { statements_of tree.now < 2 ^ 64 → IfSome result (λ f. f.0 < statements_of tree.now) }
{
    let mut walk = Walk::new(0, 0);
    meet_design(&mut walk, tree);
    walk.first
}

/// The lowest limit that is passed by the statements from one number up to before another.
pub fn lowest_on(tree: &DesignTree, from: u64, to: u64) -> Option<Limit>
    ensures none { statements_of tree.now < 2 ^ 64
        → IfNone result (limits_on from to (limit_faults tree.now) ≡ []) }
    ensures lowest { statements_of tree.now < 2 ^ 64
        → IfSome result (IsLeast is_lower (limits_on from to (limit_faults tree.now))) }
{
    let mut walk = Walk::new(from, to);
    meet_design(&mut walk, tree);
    walk.lowest
}
