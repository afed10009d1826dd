//! Clauses. Each call writes to `out`.
ghost use Rattle.std.specs.Prelude.{[], true};
ghost use Rattle.acc_page.specs.Written.{Adds};
ghost use Rattle.std.specs.List.{flat_map};
ghost use Rattle.acc_print.specs.Lists.{spaced, listed};
ghost use Rattle.acc_print.specs.Sums.{term, terms};
ghost use Rattle.acc_print.specs.Clauses.{atom_text, unknown_text, form_text, rel_text, binder_text, guards_text, clause_text, clause_line};

use crate::scopes::{Scope, Surroundings};
use crate::sums::{push_coefficient, push_constant};
use crate::values::{comparison, push_cell, push_row};
use acc_base::forms::{Atom, Clause, Form, Rel, Unknown};
use acc_base::sequences::Text;
use acc_page::Page;

fn push_atom(out: &mut Page, scope: &Scope, atom: &Atom)
    ensures { Adds out.old out.new (atom_text scope.now atom.now) }
{
    match atom {
        Atom::One => {}
        Atom::Var(variable) => out.push(scope.variable(*variable)),
        Atom::Has(table, key) => {
            out.push(b"has ");
            push_row(out, scope, *table, key.as_slice())
        }
        Atom::Col(table, key, column) => push_cell(out, scope, *table, key.as_slice(), *column),
        Atom::Count(table, key) => {
            out.push(b"count ");
            push_row(out, scope, *table, key.as_slice())
        }
        Atom::Sum(table, key, column) => {
            out.push(b"sum ");
            push_cell(out, scope, *table, key.as_slice(), *column)
        }
    }
}

fn push_unknown(out: &mut Page, scope: &Scope, first: bool, unknown: &Unknown, number: i128)
    ensures { Adds out.old out.new (term first number (unknown_text scope.now unknown.now)) }
{
    push_coefficient(out, first, number);
    push_atom(out, scope, &unknown.atom)
}

fn push_unknowns(out: &mut Page, scope: &Scope, sum: &[(Unknown, i128)])
    ensures { Adds out.old out.new (terms (unknown_text scope.now) true sum.now) }
{
    let mut first = true;
    for (unknown, number) in sum {
        push_unknown(out, scope, first, unknown, *number);
        first = false;
    }
}

fn push_form(out: &mut Page, scope: &Scope, form: &Form)
    ensures { Adds out.old out.new (form_text scope.now form.now) }
{
    push_unknowns(out, scope, form.terms.as_slice());
    push_constant(out, form.terms.is_empty(), form.constant)
}

fn push_rel(out: &mut Page, scope: &Scope, rel: &Rel)
    ensures { Adds out.old out.new (rel_text scope.now rel.now) }
{
    push_form(out, scope, &rel.form);
    out.push(comparison(rel.equal))
}

/// Relations with commas between them.
fn push_rels(out: &mut Page, scope: &Scope, rels: &[Rel])
    ensures { Adds out.old out.new (listed (rel_text scope.now) [] rels.now) }
{
    let mut before: &[u8] = b"";
    for rel in rels {
        out.push(before);
        push_rel(out, scope, rel);
        before = b", ";
    }
}

fn push_guards(out: &mut Page, scope: &Scope, rels: &[Rel])
    ensures { Adds out.old out.new (guards_text scope.now rels.now) }
{
    if rels.is_empty() {
        return;
    }
    push_rels(out, scope, rels);
    out.push(b" => ")
}

/// Names, each behind a space.
pub fn push_names(out: &mut Page, names: &[Text])
    ensures { Adds out.old out.new (flat_map spaced names.now) }
{
    for name in names {
        out.push(b" ");
        out.push(name.as_slice());
    }
}

fn push_binder(out: &mut Page, variables: &[Text])
    ensures { Adds out.old out.new (binder_text variables.now) }
{
    if variables.is_empty() {
        return;
    }
    out.push(b"forall");
    push_names(out, variables);
    out.push(b" : ")
}

fn push_clause(out: &mut Page, surroundings: &Surroundings, clause: &Clause)
    ensures { Adds out.old out.new (clause_text surroundings.now clause.now) }
{
    let scope = surroundings.with_own(clause.vars.as_slice());
    push_binder(out, clause.vars.as_slice());
    push_guards(out, &scope, clause.guards.as_slice());
    push_rel(out, &scope, &clause.rel)
}

/// The statements of a word and a clause, for each clause.
pub fn push_clauses(out: &mut Page, surroundings: &Surroundings, word: &[u8], clauses: &[Clause])
    ensures { Adds out.old out.new (flat_map (clause_line surroundings.now word.now) clauses.now) }
{
    for clause in clauses {
        out.push(word);
        push_clause(out, surroundings, clause);
        out.push(b"\n");
    }
}
