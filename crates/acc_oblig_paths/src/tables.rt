//! The tables that actions change, in clauses.
ghost use Rattle.std.specs.Prelude.{◌≡◌, ◌==◌};
ghost use Rattle.std.specs.List.{list_any};
ghost use Rattle.acc_base.specs.Actions.{acted_table};
ghost use Rattle.acc_oblig.specs.PathPromises.{atom_names, rel_names, clause_names};

use acc_base::forms::{Atom, Clause, Rel};
use acc_base::steps::Action;

/// Whether one of the actions changes a table.
fn changes(actions: &[Action], t: u32) -> bool
    ensures { result ≡ list_any (λ a. acted_table a == t) actions.now }
{
    actions.iter().any(|a| a.table() == t)
}

/// Whether an atom speaks of a table that one of the actions changes.
fn atom_names(actions: &[Action], a: &Atom) -> bool
    ensures { result ≡ atom_names actions.now a.now }
{
    match a.table() {
        Some(t) => changes(actions, t),
        None => false,
    }
}

fn rel_names(actions: &[Action], r: &Rel) -> bool
    ensures { result ≡ rel_names actions.now r.now }
{
    let terms = r.form.terms.as_slice();
    terms.iter().any(|t| atom_names(actions, &t.0.atom))
}

fn any_names(actions: &[Action], rels: &[Rel]) -> bool
    ensures { result ≡ list_any (rel_names actions.now) rels.now }
{
    rels.iter().any(|r| rel_names(actions, r))
}

/// Whether a clause names a table that one of the actions changes.
pub fn clause_names(actions: &[Action], c: &Clause) -> bool
    ensures { result ≡ clause_names actions.now c.now }
{
    any_names(actions, c.guards.as_slice()) || rel_names(actions, &c.rel)
}
