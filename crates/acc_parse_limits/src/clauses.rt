//! Clauses, as parts of the statement at hand.
ghost use Rattle.std.specs.Prelude.{◌≡◌};
ghost use Rattle.std.specs.List.{flat_map};
ghost use Rattle.acc_parse_limits.specs.Words.{operand_marks, form_term_marks, signed_form_term_marks, form_marks, form_rel_marks, binder_marks};
ghost use Rattle.acc_parse_limits.specs.Words.{premises_marks, clause_marks};
ghost use Rattle.acc_parse_limits.specs.Walks.{after};

use crate::values::{meet_cell, meet_names, meet_number, meet_place, meet_variable};
use crate::walks::Walk;
use acc_base::bounds::{MOST_GUARDS, MOST_VARIABLES};
use acc_base::limits::Limit;
use acc_parse_syntax::trees::{
    ClauseTree, FormRelTree, FormRels, FormTerm, FormTree, Names, Operand, SignedFormTerm,
};

fn meet_operand(walk: &mut Walk, operand: &Operand)
    ensures { walk.new ≡ after walk.old (operand_marks operand.now) }
{
    match operand {
        Operand::Variable(variable) => meet_variable(walk, variable),
        Operand::Column(cell) => meet_cell(walk, cell),
        Operand::Has(place) => meet_place(walk, place),
        Operand::Count(place) => meet_place(walk, place),
        Operand::Sum(cell) => meet_cell(walk, cell),
    }
}

fn meet_form_term(walk: &mut Walk, term: &FormTerm)
    ensures { walk.new ≡ after walk.old (form_term_marks term.now) }
{
    match term {
        FormTerm::Constant(n) => meet_number(walk, *n),
        FormTerm::Plain(operand) => meet_operand(walk, operand),
        FormTerm::Product(n, operand) => {
            meet_number(walk, *n);
            meet_operand(walk, operand);
        }
    }
}

fn meet_other_terms(walk: &mut Walk, terms: &[SignedFormTerm])
    ensures { walk.new ≡ after walk.old (flat_map signed_form_term_marks terms.now) }
{
    for signed in terms {
        meet_form_term(walk, &signed.term);
    }
}

fn meet_form(walk: &mut Walk, form: &FormTree)
    ensures { walk.new ≡ after walk.old (form_marks form.now) }
{
    meet_form_term(walk, &form.first);
    meet_other_terms(walk, form.others.as_slice());
}

fn meet_relation(walk: &mut Walk, relation: &FormRelTree)
    ensures { walk.new ≡ after walk.old (form_rel_marks relation.now) }
{
    meet_form(walk, relation.left.get());
    meet_form(walk, relation.right.get());
}

fn meet_each_relation(walk: &mut Walk, relations: &[FormRelTree])
    ensures { walk.new ≡ after walk.old (flat_map form_rel_marks relations.now) }
{
    for relation in relations {
        meet_relation(walk, relation);
    }
}

/// The variables of a clause: at most 8.
fn meet_binder(walk: &mut Walk, variables: &Option<Names>)
    ensures { walk.new ≡ after walk.old (binder_marks variables.now) }
{
    if let Some(names) = variables {
        walk.pass_if(Limit::Variables, names.others.len() > MOST_VARIABLES - 1);
        meet_names(walk, names);
    }
}

/// The guards of a clause: at most 16 relations.
fn meet_premises(walk: &mut Walk, guards: &Option<FormRels>)
    ensures { walk.new ≡ after walk.old (premises_marks guards.now) }
{
    if let Some(relations) = guards {
        walk.pass_if(
            Limit::GuardRelations,
            relations.others.len() > MOST_GUARDS - 1,
        );
        meet_relation(walk, &relations.first);
        meet_each_relation(walk, relations.others.as_slice());
    }
}

pub fn meet_clause(walk: &mut Walk, clause: &ClauseTree)
    ensures { walk.new ≡ after walk.old (clause_marks clause.now) }
{
    meet_binder(walk, &clause.variables);
    meet_premises(walk, &clause.guards);
    meet_relation(walk, &clause.relation);
}
