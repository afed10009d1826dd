//! The statements of clauses.
ghost use Rattle.std.specs.Prelude.{◌≡◌};
ghost use Rattle.acc_form.specs.Marks.{numbered};
ghost use Rattle.acc_form.specs.Statements.{clause_marks};
ghost use Rattle.acc_form.specs.Walks.{after};

use crate::names::are_new;
use crate::sizes::clause_small;
use crate::walks::Walk;
use crate::widths::clause_fits;
use acc_base::forms::Clause;
use acc_base::rules::FormRule;
use acc_base::sequences::Text;
use acc_base::tables::Table;

/// A clause behind these names, one of so many.
fn meet_clause(
    walk: &mut Walk,
    tables: &[Table],
    names: &[Text],
    most: usize,
    i: usize,
    clause: &Clause,
)
    ensures { walk.new ≡ after walk.old (clause_marks tables.now names.now most i clause.now) }
{
    walk.ask(FormRule::Widths, clause_fits(tables, clause));
    walk.ask(FormRule::Limits, i != most && clause_small(clause));
    walk.ask(FormRule::Names, are_new(names, clause.vars.as_slice()));
    walk.end();
}

/// Clauses behind these names, at most so many.
pub fn meet_clauses(
    walk: &mut Walk,
    tables: &[Table],
    names: &[Text],
    most: usize,
    clauses: &[Clause],
)
    ensures { walk.new ≡ after walk.old (numbered (clause_marks tables.now names.now most) clauses.now) }
{
    for (i, clause) in clauses.iter().enumerate() {
        meet_clause(walk, tables, names, most, i, clause);
    }
}
