//! The statements of tables, clauses, points, types, entries and hints.
ghost use Rattle.std.specs.Prelude.{◌≡◌, ◌-◌, length};
ghost use Rattle.acc_parse_limits.specs.Marks.{limited};
ghost use Rattle.acc_parse_limits.specs.Statements.{table_marks, clause_statement_marks, returns_marks, locals_marks, variant_marks, point_marks};
ghost use Rattle.acc_parse_limits.specs.Statements.{head_marks, type_marks, entry_marks, hint_marks};
ghost use Rattle.acc_parse_limits.specs.Walks.{after};

use crate::clauses::meet_clause;
use crate::steps::meet_step;
use crate::values::{
    meet_each_name, meet_name, meet_names, meet_number, meet_pairs, meet_point_name,
    meet_small_number, meet_sum,
};
use crate::walks::Walk;
use acc_base::bounds::{MOST_CLAUSES, MOST_COLUMNS, MOST_KEY_PARTS, MOST_LOCALS, MOST_POINTS};
use acc_base::limits::Limit;
use acc_parse_syntax::trees::{
    ClauseTree, EntryTree, HintTree, Names, PointTree, Sum, TableTree, TypeTree,
};

pub fn meet_table(walk: &mut Walk, table: &TableTree)
    ensures { walk.new ≡ after walk.old (table_marks table.now) }
{
    walk.pass_if(
        Limit::KeyWidth,
        table.width < 1 || table.width > MOST_KEY_PARTS as u64,
    );
    walk.pass_if(Limit::Columns, table.columns.len() > MOST_COLUMNS);
    meet_name(walk, &table.name);
    meet_number(walk, table.width);
    meet_each_name(walk, table.columns.as_slice());
    walk.end();
}

/// A statement of a word and a clause.
pub fn meet_clause_statement(walk: &mut Walk, clause: &ClauseTree)
    ensures { walk.new ≡ after walk.old (clause_statement_marks clause.now) }
{
    meet_clause(walk, clause);
    walk.end();
}

/// At most 64 clauses, of a point or of a type.
fn meet_clauses(walk: &mut Walk, clauses: &[ClauseTree])
    ensures { walk.new ≡ after walk.old (limited Limit.Clauses MOST_CLAUSES clause_statement_marks clauses.now) }
{
    for (i, clause) in clauses.iter().enumerate() {
        walk.pass_if(Limit::Clauses, i == MOST_CLAUSES);
        meet_clause_statement(walk, clause);
    }
}

fn meet_variant(walk: &mut Walk, variant: &Option<Sum>)
    ensures { walk.new ≡ after walk.old (variant_marks variant.now) }
{
    if let Some(sum) = variant {
        meet_sum(walk, sum);
        walk.end();
    }
}

fn meet_point(walk: &mut Walk, point: &PointTree)
    ensures { walk.new ≡ after walk.old (point_marks point.now) }
{
    meet_name(walk, &point.name);
    walk.end();
    meet_variant(walk, &point.variant);
    meet_clauses(walk, point.holds.as_slice());
    meet_step(walk, point.next.get());
    meet_step(walk, point.undo.get());
}

/// The points behind the first: at most 31.
fn meet_other_points(walk: &mut Walk, points: &[PointTree])
    ensures { walk.new ≡ after walk.old (limited Limit.Points (MOST_POINTS - 1) point_marks points.now) }
{
    for (i, point) in points.iter().enumerate() {
        walk.pass_if(Limit::Points, i == MOST_POINTS - 1);
        meet_point(walk, point);
    }
}

/// `type` with its name and parameters, and `limit`.
fn meet_head(walk: &mut Walk, t: &TypeTree)
    ensures { walk.new ≡ after walk.old (head_marks t.now) }
{
    walk.pass_if(Limit::Locals, t.params.len() > MOST_LOCALS);
    meet_name(walk, &t.name);
    meet_each_name(walk, t.params.as_slice());
    walk.end();
    meet_small_number(walk, t.limit);
    walk.end();
}

fn meet_returns(walk: &mut Walk, returns: &Option<Names>)
    ensures { walk.new ≡ after walk.old (returns_marks returns.now) }
{
    if let Some(names) = returns {
        meet_names(walk, names);
        walk.end();
    }
}

/// `local`, behind so many parameters: at most 48 with them.
fn meet_locals(walk: &mut Walk, params: usize, locals: &Option<Names>)
    ensures { walk.new ≡ after walk.old (locals_marks params locals.now) }
{
    if let Some(names) = locals {
        let others = names.others.len();
        walk.pass_if(
            Limit::Locals,
            params >= MOST_LOCALS || others >= MOST_LOCALS - params,
        );
        meet_names(walk, names);
        walk.end();
    }
}

pub fn meet_type(walk: &mut Walk, t: &TypeTree)
    ensures { walk.new ≡ after walk.old (type_marks t.now) }
{
    meet_head(walk, t);
    meet_returns(walk, &t.returns);
    meet_locals(walk, t.params.len(), &t.locals);
    meet_clauses(walk, t.ensured.as_slice());
    meet_clauses(walk, t.repaired.as_slice());
    meet_point(walk, &t.first);
    meet_other_points(walk, t.others.as_slice());
}

pub fn meet_entry(walk: &mut Walk, entry: &EntryTree)
    ensures { walk.new ≡ after walk.old (entry_marks entry.now) }
{
    meet_point_name(walk, &entry.held);
    meet_point_name(walk, &entry.by);
    meet_pairs(walk, &entry.pairs);
    walk.end();
}

pub fn meet_hint(walk: &mut Walk, hint: &HintTree)
    ensures { walk.new ≡ after walk.old (hint_marks hint.now) }
{
    meet_point_name(walk, &hint.of);
    meet_sum(walk, &hint.value);
    walk.end();
}
