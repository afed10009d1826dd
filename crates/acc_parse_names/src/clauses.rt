//! Clauses: whether their variables are new, and what they use is defined.
ghost use Rattle.std.specs.Prelude.{◌≡◌, ◌++◌, [], map, IfOk, OnOk};
ghost use Rattle.std.specs.List.{list_any};
ghost use Rattle.acc_parse_names.specs.Names.{listed_or_none, defines_again};
ghost use Rattle.acc_parse_names.specs.Views.{scope_in};
ghost use Rattle.acc_parse_names.specs.Faults.{operand_fault, form_term_fault, form_fault, form_rel_fault, premises_fault, clause_fault};

use crate::names::NameIndex;
use crate::rows::{cell_fault, place_fault};
use crate::scopes::{Definitions, Variables};
use crate::values::variable_fault;
use acc_base::sequences::Text;
use acc_parse_syntax::trees::{
    ClauseTree, FormRelTree, FormRels, FormTerm, FormTree, Names, Operand, SignedFormTerm,
};
use std::alloc::{AllocError, Global};

fn operand_fault<'a>(definitions: &Definitions<'_, 'a>, operand: &'a Operand) -> bool
    ensures { result ≡ operand_fault (scope_in definitions.now) operand.now }
{
    match operand {
        Operand::Variable(variable) => variable_fault(definitions.variables, variable),
        Operand::Column(cell) | Operand::Sum(cell) => cell_fault(definitions, cell),
        Operand::Has(place) | Operand::Count(place) => place_fault(definitions, place),
    }
}

fn form_term_fault<'a>(definitions: &Definitions<'_, 'a>, term: &'a FormTerm) -> bool
    ensures { result ≡ form_term_fault (scope_in definitions.now) term.now }
{
    match term {
        FormTerm::Constant(_) => false,
        FormTerm::Plain(operand) | FormTerm::Product(_, operand) => {
            operand_fault(definitions, operand)
        }
    }
}

fn any_form_term_fault<'a>(definitions: &Definitions<'_, 'a>, terms: &'a [SignedFormTerm]) -> bool
    ensures { result ≡ list_any (λ t. form_term_fault (scope_in definitions.now) t.term) terms.now }
{
    for signed in terms {
        if form_term_fault(definitions, &signed.term) {
            return true;
        }
    }
    false
}

fn form_fault<'a>(definitions: &Definitions<'_, 'a>, form: &'a FormTree) -> bool
    ensures { result ≡ form_fault (scope_in definitions.now) form.now }
{
    form_term_fault(definitions, &form.first)
        || any_form_term_fault(definitions, form.others.as_slice())
}

fn form_rel_fault<'a>(definitions: &Definitions<'_, 'a>, relation: &'a FormRelTree) -> bool
    ensures { result ≡ form_rel_fault (scope_in definitions.now) relation.now }
{
    form_fault(definitions, relation.left.get()) || form_fault(definitions, relation.right.get())
}

fn any_form_rel_fault<'a>(definitions: &Definitions<'_, 'a>, relations: &'a [FormRelTree]) -> bool
    ensures { result ≡ list_any (form_rel_fault (scope_in definitions.now)) relations.now }
{
    for relation in relations {
        if form_rel_fault(definitions, relation) {
            return true;
        }
    }
    false
}

fn premises_fault<'a>(definitions: &Definitions<'_, 'a>, premises: &'a Option<FormRels>) -> bool
    ensures { result ≡ premises_fault (scope_in definitions.now) premises.now }
{
    match premises {
        Some(relations) => {
            form_rel_fault(definitions, &relations.first)
                || any_form_rel_fault(definitions, relations.others.as_slice())
        }
        None => false,
    }
}

/// Whether a name is one of the locals, or stands before itself; the names stand in `own` then.
fn any_again<'a>(
    locals: &NameIndex<'a>,
    own: &mut NameIndex<'a>,
    names: &'a [Text],
) -> Result<bool, AllocError>
    ensures again { IfOk result (λ again. again ≡ defines_again (locals.now ++ own.old) names.now) }
    ensures own { OnOk result (own.new ≡ own.old ++ names.now) }
{
    let mut again = false;
    for name in names {
        again |= locals.has(name);
        again |= own.add(name)?;
    }
    Ok(again)
}

/// Whether a variable of a clause is one of the locals, or stands before itself; they stand in `own` then.
fn forall_again<'a>(
    locals: &NameIndex<'a>,
    own: &mut NameIndex<'a>,
    names: &'a Option<Names>,
) -> Result<bool, AllocError>
    requires { own.old ≡ [] }
    ensures again { IfOk result (λ again. again ≡ defines_again locals.now (listed_or_none names.now)) }
    ensures own { OnOk result (own.new ≡ listed_or_none names.now) }
{
    match names {
        Some(names) => {
            let first = locals.has(&names.first);
            own.add(&names.first)?;
            Ok(any_again(locals, own, names.others.as_slice())? || first)
        }
        None => Ok(false),
    }
}

/// Whether a variable of a clause isn't new, or something that it uses isn't defined.
pub fn clause_fault<'a>(
    alloc: Global,
    definitions: &Definitions<'_, 'a>,
    clause: &'a ClauseTree,
) -> Result<bool, AllocError>
    requires { definitions.now.variables.now.own.now ≡ [] }
    ensures { IfOk result (λ fault. fault ≡ clause_fault (scope_in definitions.now) clause.now) }
{
    let locals = definitions.variables.locals;
    let mut own = NameIndex::new(alloc);
    let again = forall_again(locals, &mut own, &clause.variables)?;
    let variables = Variables { locals, own: &own };
    let inside = Definitions {
        tables: definitions.tables,
        variables: &variables,
    };
    Ok(
        again
            || premises_fault(&inside, &clause.guards)
            || form_rel_fault(&inside, &clause.relation),
    )
}

/// Puts behind `faults` whether each clause's statement has a fault.
pub fn clauses_faults<'a>(
    alloc: Global,
    definitions: &Definitions<'_, 'a>,
    clauses: &'a [ClauseTree],
    faults: &mut Vec<bool>,
) -> Result<(), AllocError>
    requires { definitions.now.variables.now.own.now ≡ [] }
    ensures { OnOk result
        (faults.new.items ≡ faults.old.items ++ map (clause_fault (scope_in definitions.now)) clauses.now) }
{
    for clause in clauses {
        faults.push(clause_fault(alloc, definitions, clause)?)?;
    }
    Ok(())
}
