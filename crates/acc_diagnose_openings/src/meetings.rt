//! Where the actions of a step may meet what an assertion speaks of: a row of both.
use crate::keys::{action_key, is_alone};
use acc_base::forms::{Atom, Clause, Form, Lin};
use acc_base::steps::{Action, Path};

/// A local of the transaction that holds an assertion and one of the transaction that takes a step, the numbers of both, all as variables
/// of the design, and the paths of the step.
#[derive(Clone, Copy)]
pub struct Meeting<'a> {
    pub pair: (usize, usize),
    pub own: (usize, usize),
    pub paths: &'a [Path],
}

/// How many meetings have the two locals at one place of their keys, and how many haven't.
#[derive(Clone, Copy)]
pub struct Tally {
    pub with: u64,
    pub without: u64,
}

/// Whether an action on a row of an atom may change its value.
fn changes(action: &Action, atom: &Atom) -> bool {
    match action {
        Action::Put(_, _, _) | Action::Del(_, _) => true,
        Action::Set(_, _, column, _) | Action::Add(_, _, column, _) => {
            atom.column() == Some(*column)
        }
    }
}

/// Whether two components are never equal: two constants, or the numbers of the two transactions.
fn differ(question: &Meeting, held: &Lin, step: &Lin) -> bool {
    let are_constants = held.coeffs.is_empty() && step.coeffs.is_empty();
    let are_numbers = is_alone(held, question.own.0) && is_alone(step, question.own.1);
    are_numbers || (are_constants && held.constant != step.constant)
}

/// Counts a meeting of two keys, unless they are never equal.
fn add_meeting(tally: &mut Tally, question: &Meeting, held: &[Lin], step: &[Lin]) {
    let mut has_pair = false;
    for (left, right) in held.iter().zip(step.iter()) {
        if differ(question, left, right) {
            return;
        }
        has_pair |= is_alone(left, question.pair.0) && is_alone(right, question.pair.1);
    }
    if has_pair {
        tally.with = tally.with.saturating_add(1);
    } else {
        tally.without = tally.without.saturating_add(1);
    }
}

fn add_action(tally: &mut Tally, question: &Meeting, atom: &Atom, action: &Action) {
    if atom.table() == Some(action.table()) && changes(action, atom) {
        add_meeting(tally, question, atom.key(), action_key(action));
    }
}

fn add_path(tally: &mut Tally, question: &Meeting, atom: &Atom, path: &Path) {
    for action in path.actions.as_slice() {
        add_action(tally, question, atom, action);
    }
}

fn add_atom(tally: &mut Tally, question: &Meeting, atom: &Atom) {
    for path in question.paths {
        add_path(tally, question, atom, path);
    }
}

fn add_form(tally: &mut Tally, question: &Meeting, form: &Form) {
    for (unknown, _) in form.terms.as_slice() {
        add_atom(tally, question, &unknown.atom);
    }
}

fn add_clause(tally: &mut Tally, question: &Meeting, clause: &Clause) {
    for guard in clause.guards.as_slice() {
        add_form(tally, question, &guard.form);
    }
    add_form(tally, question, &clause.rel.form);
}

/// Counts the meetings of the actions of a step with what some assertions speak of.
pub fn tally_of(question: &Meeting, clauses: &[Clause]) -> Tally {
    let mut tally = Tally {
        with: 0,
        without: 0,
    };
    for clause in clauses {
        add_clause(&mut tally, question, clause);
    }
    tally
}
