//! The statements of a whole design, and whether it is well-formed.
ghost use Rattle.std.specs.Prelude.{◌≡◌, ◌≤◌, ◌↔◌, [], length, IsOk, IfErr, MatchOption};
ghost use Rattle.acc_form.specs.Marks.{numbered};
ghost use Rattle.acc_form.specs.Statements.{table_marks, type_marks, entry_marks, hint_marks, design_marks};
ghost use Rattle.acc_form.specs.Faults.{form_faults, is_before, IsFirstFault};
ghost use Rattle.acc_base.specs.Leasts.{IsLeast};
ghost use Rattle.acc_formed.specs.WellFormed.{IsWellFormed};
ghost use Rattle.acc_form.specs.Walks.{after};
ghost use Rattle.acc_form.specs.Judged.{IsFaultInPrint};

use crate::clauses::meet_clauses;
use crate::entries::{leaves_starts, pairs_stay, stands_among};
use crate::names::{are_distinct, names_table};
use crate::ranges::design_in;
use crate::rules::FormError;
use crate::sizes::{lin_small, table_small};
use crate::types::meet_type;
use crate::walks::Walk;
use acc_base::bounds::{MOST_ALWAYS, MOST_ENTRIES, MOST_HINTS, MOST_TABLES};
use acc_base::designs::{Design, Entry, Hint, TxType};
use acc_base::rules::FormRule;
use acc_base::tables::Table;

fn meet_table(walk: &mut Walk, tables: &[Table], i: usize, table: &Table)
    requires { i ≤ length tables.now }
    ensures { walk.new ≡ after walk.old (table_marks tables.now i table.now) }
{
    walk.ask(FormRule::Limits, i != MOST_TABLES && table_small(table));
    walk.ask(
        FormRule::Names,
        !names_table(&tables[..i], &table.name) && are_distinct(table.cols.as_slice()),
    );
    walk.end();
}

/// At most 64 tables.
fn meet_tables(walk: &mut Walk, tables: &[Table])
    ensures { walk.new ≡ after walk.old (numbered (table_marks tables.now) tables.now) }
{
    for (i, table) in tables.iter().enumerate() {
        meet_table(walk, tables, i, table);
    }
}

/// At most 64 types.
fn meet_types(walk: &mut Walk, tables: &[Table], types: &[TxType])
    ensures { walk.new ≡ after walk.old (numbered (type_marks tables.now types.now) types.now) }
{
    for (i, ty) in types.iter().enumerate() {
        meet_type(walk, tables, types, i, ty);
    }
}

fn meet_entry(walk: &mut Walk, types: &[TxType], entries: &[Entry], i: usize, entry: &Entry)
    requires { i ≤ length entries.now }
    ensures { walk.new ≡ after walk.old (entry_marks types.now entries.now i entry.now) }
{
    walk.ask(FormRule::Limits, i != MOST_ENTRIES);
    walk.ask(FormRule::Starts, leaves_starts(entry));
    walk.ask(FormRule::Entries, !stands_among(&entries[..i], entry));
    walk.ask(FormRule::Pairs, pairs_stay(types, entry));
    walk.end();
}

/// At most 1,024 entries.
fn meet_entries(walk: &mut Walk, types: &[TxType], entries: &[Entry])
    ensures { walk.new ≡ after walk.old (numbered (entry_marks types.now entries.now) entries.now) }
{
    for (i, entry) in entries.iter().enumerate() {
        meet_entry(walk, types, entries, i, entry);
    }
}

fn meet_hint(walk: &mut Walk, i: usize, hint: &Hint)
    ensures { walk.new ≡ after walk.old (hint_marks i hint.now) }
{
    walk.ask(FormRule::Limits, i != MOST_HINTS && lin_small(&hint.lin));
    walk.end();
}

/// At most 1,024 hints.
fn meet_hints(walk: &mut Walk, hints: &[Hint])
    ensures { walk.new ≡ after walk.old (numbered hint_marks hints.now) }
{
    for (i, hint) in hints.iter().enumerate() {
        meet_hint(walk, i, hint);
    }
}

fn meet_design(walk: &mut Walk, design: &Design)
    ensures { walk.new ≡ after walk.old (design_marks design.now) }
{
    let tables = design.tables.as_slice();
    let types = design.types.as_slice();
    meet_tables(walk, tables);
    meet_clauses(walk, tables, &[], MOST_ALWAYS, design.always.as_slice());
    meet_types(walk, tables, types);
    meet_entries(walk, types, design.entries.as_slice());
    meet_hints(walk, design.hints.as_slice());
}

/// The lowest rule that is broken, and the first line that breaks it.
fn first_fault(design: &Design) -> Option<(FormRule, u64)>
    ensures { MatchOption result (form_faults design.now ≡ []) (IsLeast is_before (form_faults design.now)) }
{
    if !design_in(design) {
        return Some((FormRule::Ranges, 0));
    }
    let mut walk = Walk::new();
    meet_design(&mut walk, design);
    walk.first
}

/// Whether a design keeps the form rules; else the lowest rule that it breaks, and the first line that breaks it. It takes no
/// memory.
pub fn well_formed(design: &Design) -> Result<(), FormError>
    ensures ok { IsOk result ↔ IsWellFormed design.now }
    ensures bad { IfErr result (IsFirstFault design.now) }
    // But for the rule of ranges, the statement on the line breaks the rule.
    ensures printed { IfErr result (IsFaultInPrint design.now) }
{
    match first_fault(design) {
        None => Ok(()),
        Some((rule, line)) => Err(FormError::Bad(rule, line)),
    }
}
